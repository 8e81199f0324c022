ghost use Rattle.std.specs.Prelude.{List, ℕ};
ghost use Rattle.xc_data.specs.declared.entry.Entry.{Entry};
ghost use Rattle.xc_data.specs.declared.entry.JobLine.{JobLine};
ghost use Rattle.xc_data.specs.declared.entry.KeptItem.{KeptItem};
ghost use Rattle.xc_print.specs.Text.{rendered};
ghost use Rattle.xc_sheet.specs.declared.places.LinePlace.TheVariants as place;
ghost use Rattle.xc_sheet.specs.EndRanges.{IsEndInRange};
ghost use Rattle.xc_sheet.specs.Ends.{end_lines};
ghost use Rattle.xc_sheet.specs.Ranges.{AreLinesInRange};
ghost use Rattle.xc_sheet.specs.Sheets.{AreWholeFrom};

/// The printed text of an end within its ranges is a whole text: that of its lines, each in its range and its place. So
/// `read_sheet` reads it to its end, and finds these lines.
pub fn a_rendered_text_is_whole()
    ensures within { (journal : List Entry) (jobs : List JobLine) (words : List ℕ) (kept : List KeptItem)
        → IsEndInRange journal jobs words kept → AreLinesInRange (end_lines journal jobs words kept) }
    ensures whole { (journal : List Entry) (jobs : List JobLine) (words : List ℕ) (kept : List KeptItem)
        → IsEndInRange journal jobs words kept
        → AreWholeFrom place.Between (end_lines journal jobs words kept) (rendered journal jobs words kept) }
{}
