ghost use Rattle.std.specs.Prelude.{◌≡◌, ◌≤◌, ◌^◌, List, length, map, sum_by};
ghost use Rattle.xc_data.specs.declared.entry.Entry.{Entry as PlainEntry};
ghost use Rattle.xc_print.specs.Totals.{totals_of};
ghost use Rattle.xc_shown.specs.Shown.{shown_of};
ghost use Rattle.xc_tail.specs.ShownTotals.{end_faults_shown, is_committed_shown, faults_shown};

use xc_data::{Outcome, UndoEnd};
use xc_lines::UndoKind;
use xc_print::{Totals, end_faults_of, entry_faults_of};
use xc_shown::Shown;

// It is a commit.
fn is_committed(shown: &Shown) -> bool
    ensures { result ≡ is_committed_shown shown.now }
{
    matches!(shown.entry.outcome, Outcome::Committed { .. })
}

// The faults of the compensations.
fn sum_faults(records: &[(UndoKind, UndoEnd)]) -> u128
    ensures value { result ≡ sum_by end_faults_shown records.now }
    ensures bound { result ≤ 2 ^ 96 }
{
    let mut faults = 0;
    for record in records {
        faults += end_faults_of(&record.1) as u128;
    }
    faults
}

// All faults of an entry.
fn faults_of(shown: &Shown) -> u128
    ensures value { result ≡ faults_shown shown.now }
    ensures bound { result ≤ 2 ^ 98 }
{
    entry_faults_of(&shown.entry) + sum_faults(shown.records.as_slice())
}

/// The totals of a journal whose text shows this.
pub fn totals_of_shown(entries: &[Shown]) -> Totals
    requires few { length entries.now ≤ 2 ^ 26 }
    ensures { (journal : List PlainEntry) → map shown_of journal ≡ entries.now → result ≡ totals_of journal }
{
    let (mut committed, mut aborted) = (0, 0);
    let (mut faults, mut remains) = (0, 0);
    for shown in entries {
        if is_committed(shown) {
            committed += 1;
        } else {
            aborted += 1;
        }
        faults += faults_of(shown);
        remains += shown.effects.len() as u128;
    }
    Totals {
        committed,
        aborted,
        faults,
        remains,
    }
}
