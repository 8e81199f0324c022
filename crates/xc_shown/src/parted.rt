ghost use Rattle.std.specs.Prelude.{◌≡◌, ◌++◌, List, ℕ, map, false, All, IfOk, Some};
ghost use Rattle.xc_data.specs.declared.entry.Entry.{Entry};
ghost use Rattle.xc_data.specs.declared.entry.JobLine.{JobLine};
ghost use Rattle.xc_data.specs.declared.entry.KeptItem.{KeptItem};
ghost use Rattle.xc_sheet.specs.Ends.{end_lines};
ghost use Rattle.xc_sheet.specs.Places.{behind_lines};
ghost use Rattle.xc_sheet.specs.Sheets.{HaveText};
ghost use Rattle.xc_sheet.specs.declared.lines.Line.{Line};
ghost use Rattle.xc_sheet.specs.declared.places.LinePlace.TheVariants as place;
ghost use Rattle.xc_shown.specs.Shown.{bare, shown_of, shown_lines, tail_lines, is_of_entry, IsReplied, IsPlain};
ghost use Rattle.xc_shown.specs.declared.shown.Shown.{Shown};

use crate::gathered::{Gathered, gather};
use crate::shown::Shown;
use std::alloc::Global;
use xc_data::{Items, NoMemory};
use xc_sheet::Line;

/// The lines of a whole text, parted: what they show of the entries, and the lines behind them.
#[derive(Drop)]
pub struct Parted {
    pub entries: Items<Shown>,
    pub tail: Items<Line>,
}

/// Parts the lines of a whole text. Each line is moved, and none is copied.
pub fn part(alloc: Global, lines: Items<Line>) -> Result<Parted, NoMemory>
    requires placed { behind_lines (Some place.Between) lines ≡ Some place.Ended }
    requires some { HaveText lines }
    ensures parts { IfOk result (λ p. lines ≡ shown_lines p.entries ++ p.tail) }
    ensures bare { IfOk result (λ p. All (λ (shown : Shown). bare shown.entry ≡ shown.entry) p.entries) }
    ensures replied { IfOk result (λ p. All (λ (shown : Shown). IsReplied shown.entry) p.entries) }
    ensures plain { IfOk result (λ p. All (λ (shown : Shown). IsPlain shown.entry.outcome shown) p.entries) }
    ensures tail { IfOk result (λ p. All (λ (l : Line). is_of_entry l ≡ false) p.tail) }
    ensures only { (journal : List Entry) (jobs : List JobLine) (words : List ℕ) (kept : List KeptItem)
        → lines ≡ end_lines journal jobs words kept → All IsReplied journal
        → IfOk result (λ p. (map shown_of journal ≡ p.entries) × (p.tail ≡ tail_lines journal jobs words kept)) }
{
    let all = gather(alloc, lines)?;
    let Gathered { entries, tail, .. } = all;
    let entries = entries.into_items();
    let tail = tail.into_items();
    Ok(Parted { entries, tail })
}
