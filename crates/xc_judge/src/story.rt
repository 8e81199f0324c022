ghost use Rattle.std.specs.Bool.{Decides};
ghost use Rattle.std.specs.Prelude.{◌≡◌, ◌≤◌, false};
ghost use Rattle.xc_model.specs.EntryEnds.{IsCauseOf, HasAbortCause, failures_with, is_tried_again};
ghost use Rattle.xc_model.specs.Machine.{IsAttempt, IsEndAsked};
ghost use Rattle.xc_model.specs.Recorded.{all_records, no_records};
ghost use Rattle.xc_judge.specs.Judged.{telling_terms};

use crate::faults::records_of;
use crate::{Basis, Standing};
use xc_data::{Call, Cause, Entry, Outcome, Report};
use xc_script::Ask;

// An attempt that is to be tried again.
fn is_tried_again(cause: &Cause) -> bool
    ensures { result ≡ is_tried_again cause.now }
{
    match cause {
        Cause::Conflict { .. } | Cause::Revoked { .. } => true,
        Cause::Asked | Cause::NoMemory | Cause::Stuck { .. } => false,
    }
}

// An abort, a call where it met a holder, a back where a block got stuck; anything where it was revoked or memory ran out.
fn is_cause_of(cause: &Cause, last: &Ask) -> bool
    ensures { Decides result (IsCauseOf cause.now last.now) }
{
    match cause {
        Cause::Asked => matches!(last, Ask::Abort),
        Cause::Conflict { .. } => matches!(last, Ask::Call(_)),
        Cause::NoMemory | Cause::Revoked { .. } => true,
        Cause::Stuck { .. } => matches!(last, Ask::Call(Call::Back)),
    }
}

// An entry's abort was caused so: what led there was asked, and a way back got stuck at a record of its block.
fn is_caused(last: &Ask, entry: &Entry, report: &Report) -> bool
    ensures { Decides result (HasAbortCause (all_records no_records entry.now.calls entry.now.replies) last.now report.now) }
{
    let counted = records_of(entry.calls.as_slice(), entry.replies.as_slice());
    is_cause_of(&report.cause, last)
        && counted.is_stuck_in(report.records.as_slice(), &report.cause)
}

// A committed transaction's commit was asked, or what led to the abort.
fn is_end_asked(last: &Ask, entry: &Entry) -> bool
    ensures { Decides result (IsEndAsked last.now entry.now entry.now.outcome) }
{
    match &entry.outcome {
        Outcome::Committed { .. } => matches!(last, Ask::Commit),
        Outcome::Aborted(report) => is_caused(last, entry, report),
    }
}

impl Standing {
    // The job goes on after its last entry: want of memory ends one that no client asks.
    fn goes_on(&self, clients: bool) -> bool
        ensures { Decides result (clients ≡ false → self.now.starved ≡ false) }
    {
        clients || !self.starved
    }

    // Not too many attempts at its transaction failed, one with this outcome among them.
    fn are_few_failures(&self, attempts: u32, outcome: &Outcome) -> bool
        ensures { Decides result (failures_with self.now.failed outcome.now ≤ attempts) }
    {
        match outcome {
            Outcome::Aborted(report) if is_tried_again(&report.cause) => {
                self.failed.len() < attempts as usize
            }
            Outcome::Aborted(_) | Outcome::Committed { .. } => {
                self.failed.len() <= attempts as usize
            }
        }
    }

    /// The job goes on with this attempt: its rank is the number of the first one, and not too many failed.
    pub(crate) fn goes_on_with(&self, basis: &Basis, entry: &Entry) -> bool
        ensures { Decides result (IsAttempt (telling_terms basis.now) self.now entry.now) }
    {
        self.goes_on(basis.clients)
            && entry.rank == self.first.unwrap_or(entry.tx)
            && self.are_few_failures(basis.rules.attempts, &entry.outcome)
    }

    /// The same, and its end was asked.
    pub(crate) fn is_told(&self, basis: &Basis, last: &Ask, entry: &Entry) -> bool
        ensures { Decides result (IsAttempt (telling_terms basis.now) self.now entry.now
            × IsEndAsked last.now entry.now entry.now.outcome) }
    {
        self.goes_on_with(basis, entry) && is_end_asked(last, entry)
    }
}
