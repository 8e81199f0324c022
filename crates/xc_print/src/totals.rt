ghost use Rattle.std.specs.Prelude.{◌≡◌, ◌≤◌, ◌^◌, length, count_by, sum_by};
ghost use Rattle.xc_data.specs.Faults.{reply_faults, is_fault_end, end_faults, undo_faults, outcome_faults, entry_faults};
ghost use Rattle.xc_world.specs.Remains.{effect_remains};
ghost use Rattle.xc_print.specs.Totals.{is_committed, is_aborted, entry_remains, totals_of};

use xc_data::{Entry, LateEnd, Outcome, Reply, Undo, UndoEnd};
use xc_world::remaining_from;

/// What the last line of a text counts.
///
/// The counts are 128 bits wide, so no sum wraps; a journal has at most 10,000 entries.
#[derive(Clone, Copy)]
pub struct Totals {
    pub committed: usize,
    pub aborted: usize,
    /// Fault replies, late calls that ended in a fault, and faults of compensations, also of those on the way back of a block.
    pub faults: u128,
    /// How many effects of aborted transactions remain.
    pub remains: u128,
}

fn is_commit(entry: &Entry) -> bool
    ensures { result ≡ is_committed entry.now }
{
    matches!(entry.outcome, Outcome::Committed { .. })
}

fn is_abort(entry: &Entry) -> bool
    ensures { result ≡ is_aborted entry.now }
{
    matches!(entry.outcome, Outcome::Aborted(_))
}

// The faults that a reply tells of.
fn told_faults(reply: &Reply) -> u32
    ensures { result ≡ reply_faults reply.now }
{
    match reply {
        Reply::Fault(_) => 1,
        Reply::Undone(faults) => *faults,
        // Any other reply tells of none, also one yet to come.
        _ => 0,
    }
}

fn sum_told(replies: &[Reply]) -> u128
    ensures value { result ≡ sum_by reply_faults replies.now }
    ensures bound { result ≤ 2 ^ 96 }
{
    let mut faults = 0;
    for reply in replies {
        let told = told_faults(reply);
        if told > 0 {
            faults += told as u128;
        }
    }
    faults
}

fn count_fault_ends(ends: &[LateEnd]) -> usize
    ensures { result ≡ count_by is_fault_end ends.now }
{
    ends.iter()
        .filter(|end| matches!(end, LateEnd::Fault(_)))
        .count()
}

/// The faults that a compensation met.
pub fn end_faults_of(end: &UndoEnd) -> u32
    ensures { result ≡ end_faults end.now }
{
    match end {
        UndoEnd::Undone { faults } | UndoEnd::Failed { faults, .. } => *faults,
        UndoEnd::Blocked { .. } => 0,
    }
}

fn sum_faults(records: &[(Undo, UndoEnd)]) -> u128
    ensures value { result ≡ sum_by undo_faults records.now }
    ensures bound { result ≤ 2 ^ 96 }
{
    let mut faults = 0;
    for ended in records {
        faults += end_faults_of(&ended.1) as u128;
    }
    faults
}

fn outcome_faults_of(outcome: &Outcome) -> u128
    ensures value { result ≡ outcome_faults outcome.now }
    ensures bound { result ≤ 2 ^ 96 }
{
    match outcome {
        Outcome::Committed { late } => count_fault_ends(late.as_slice()) as u128,
        Outcome::Aborted(report) => sum_faults(report.records.as_slice()),
    }
}

/// The faults that an entry of the journal records.
pub fn entry_faults_of(entry: &Entry) -> u128
    ensures value { result ≡ entry_faults entry.now }
    ensures bound { result ≤ 2 ^ 97 }
{
    sum_told(entry.replies.as_slice()) + outcome_faults_of(&entry.outcome)
}

fn effect_remains(ended: &(Undo, UndoEnd)) -> bool
    ensures { result ≡ effect_remains ended.now }
{
    remaining_from(&ended.0, &ended.1).is_some()
}

fn count_remaining(records: &[(Undo, UndoEnd)]) -> usize
    ensures { result ≡ count_by effect_remains records.now }
{
    let mut count = 0;
    for ended in records {
        if effect_remains(ended) {
            count += 1;
        }
    }
    count
}

fn entry_remains_of(entry: &Entry) -> usize
    ensures { result ≡ entry_remains entry.now }
{
    match &entry.outcome {
        Outcome::Committed { .. } => 0,
        Outcome::Aborted(report) => count_remaining(report.records.as_slice()),
    }
}

/// How many effects of a journal's aborted transactions remain.
pub fn remaining_effects(journal: &[Entry]) -> u128
    requires few { length journal.now ≤ 10000 }
    ensures { result ≡ sum_by entry_remains journal.now }
{
    let mut remains = 0;
    for entry in journal {
        remains += entry_remains_of(entry) as u128;
    }
    remains
}

impl Totals {
    /// The totals of a journal: what its last line counts. They are taken in one walk over it.
    pub fn of(journal: &[Entry]) -> Totals
        requires few { length journal.now ≤ 10000 }
        ensures { result ≡ totals_of journal.now }
    {
        let (mut committed, mut aborted) = (0, 0);
        let (mut faults, mut remains) = (0, 0);
        for entry in journal {
            if is_commit(entry) {
                committed += 1;
            }
            if is_abort(entry) {
                aborted += 1;
            }
            faults += entry_faults_of(entry);
            remains += entry_remains_of(entry) as u128;
        }
        Totals {
            committed,
            aborted,
            faults,
            remains,
        }
    }
}
