ghost use Rattle.std.specs.Bool.{Decides};
ghost use Rattle.std.specs.Prelude.{◌≡◌, true, All};
ghost use Rattle.xc_judge.specs.Counts.{IsCount, IsCountedReport};
ghost use Rattle.xc_judge.specs.Ran.{has_failed, is_memory_cause};
ghost use Rattle.xc_model.specs.Recorded.{IsNewestFailed, IsOfBlock, IsStuckIn};
ghost use Rattle.xc_world.specs.Ends.{Ending, is_undone};

use crate::counted::Counted;
use crate::legal::{are_legal, is_undone};
use std::alloc::Global;
use xc_data::{Cause, Report, Undo, UndoEnd};

impl Counted {
    // There are as many records as calls left one. Without memory one of the next call may stand last.
    fn is_count(&self, cause: &Cause, n: usize) -> bool
        ensures { Decides result (IsCount self.now.count cause.now n) }
    {
        match cause {
            Cause::NoMemory => self.count <= n && n - self.count <= 1,
            Cause::Asked | Cause::Conflict { .. } | Cause::Revoked { .. } => n == self.count,
            Cause::Stuck { .. } => n == self.count,
        }
    }

    // The record of this number is one of the open block.
    fn is_of_block(&self, number: u32) -> bool
        ensures { Decides result (IsOfBlock self.now.saved number) }
    {
        match self.saved {
            Some(saved) => saved < number as usize,
            None => false,
        }
    }

    /// A way back got stuck at a record of its block.
    pub(crate) fn is_stuck_in(&self, records: &[(Undo, UndoEnd)], cause: &Cause) -> bool
        ensures { Decides result (IsStuckIn self.now.saved 1 records.now cause.now) }
    {
        match cause {
            Cause::Stuck { failed } => self.is_of_block(*failed)
                && is_newest_failed(*failed, records),
            Cause::Asked | Cause::NoMemory => true,
            Cause::Conflict { .. } | Cause::Revoked { .. } => true,
        }
    }

    /// A report has as many records as the calls left, with legal ends. Whether each is of its call isn't looked at: those of a body
    /// that was run again are.
    pub(crate) fn is_report(&self, alloc: Global, tries: u32, report: &Report) -> bool
        ensures { Decides result (IsCountedReport tries self.now.count report.now) }
    {
        let records = report.records.as_slice();
        self.is_count(&report.cause, records.len()) && are_legal(alloc, tries, records)
    }
}

// Nothing is left of these records.
fn are_undone(records: &[(Undo, UndoEnd)]) -> bool
    ensures { Decides result (All (λ (r : Ending). is_undone r.1 ≡ true) records.now) }
{
    records.iter().all(|record| is_undone(record.1))
}

// A compensation that ended so failed.
fn has_failed(end: UndoEnd) -> bool
    ensures { result ≡ has_failed end }
{
    matches!(end, UndoEnd::Failed { .. })
}

// The record of this number, which counts from 1, failed, and all newer ones are undone.
fn is_newest_failed(failed: u32, records: &[(Undo, UndoEnd)]) -> bool
    ensures { Decides result (IsNewestFailed failed 1 records.now) }
{
    let number = failed as usize;
    if number == 0 || number > records.len() {
        return false;
    }
    let record = &records[number - 1];
    if !has_failed(record.1) {
        return false;
    }
    are_undone(&records[number..])
}

/// Whether memory ran out.
pub(crate) fn is_starved(cause: &Cause) -> bool
    ensures { result ≡ is_memory_cause cause.now }
{
    matches!(cause, Cause::NoMemory)
}
