ghost use Rattle.std.specs.Prelude.{◌≡◌, ◌++◌, List};
ghost use Rattle.xc_data.specs.declared.entry.Entry.{Entry};
ghost use Rattle.xc_journal.specs.Told.{waiting_of};
ghost use Rattle.xc_live_c.specs.Finished.{both_totals, last_text};
ghost use Rattle.xc_memhost.specs.State.{MemState};
ghost use Rattle.xc_print.specs.Entries.{journal_text};
ghost use Rattle.xc_print.specs.Text.{rendered};
ghost use Rattle.xc_print.specs.Totals.{totals_of};
ghost use Rattle.xc_station.specs.declared.run_result.End.{End};

/// Texts of entries one after another are the text of these entries one after another, and counted together. With the last text
/// behind them they are what a run prints that was handed out at its end alone.
pub fn the_texts_make_the_run()
    ensures more { (one other : List Entry) → journal_text (one ++ other) ≡ journal_text one ++ journal_text other }
    ensures counted { (one other : List Entry) → totals_of (one ++ other) ≡ both_totals (totals_of one) (totals_of other) }
    ensures whole { (gone : List Entry) (end : End MemState) → journal_text gone ++ last_text (totals_of gone) end
        ≡ rendered (gone ++ waiting_of end.journal) end.jobs end.words end.kept }
{}
