ghost use Rattle.std.specs.List.{AllByRecursion};
ghost use Rattle.std.specs.Prelude.{◌≡◌, ◌≤◌, ◌^◌, length};
ghost use Rattle.xc_lines.specs.Ranges.{IsHeadInRange};
ghost use Rattle.xc_print.specs.Entries.{entry_text, journal_text, outcome_lines};
ghost use Rattle.xc_sheet.specs.EndRanges.{IsEntryInRange, IsOutcomeInRange};
ghost use Rattle.xc_sheet.specs.Ends.{head_shown};

use crate::calls::{calls, late_ends, replies};
use crate::parts::{claims, number};
use crate::records::{cause, records};
use xc_data::{Entry, Outcome};

// What an outcome has is within its ranges.
fn outcome(outcome: &Outcome)
    requires { length (outcome_lines outcome.now) ≤ 2 ^ 26 }
    ensures { IsOutcomeInRange outcome.now }
{
    match outcome {
        Outcome::Committed { late } => late_ends(late.as_slice()),
        Outcome::Aborted(report) => records(report.records.as_slice()),
    }
}

// The first line of an entry is.
fn head(entry: &Entry)
    ensures { IsHeadInRange (head_shown entry.now) }
{
    number(entry.tx);
    number(entry.job);
    number(entry.rank);
    number(entry.began);
    match &entry.outcome {
        Outcome::Committed { .. } => {}
        Outcome::Aborted(report) => cause(&report.cause),
    }
}

// An entry is.
fn entry(entry: &Entry)
    requires { length (entry_text entry.now) ≤ 2 ^ 26 }
    ensures { IsEntryInRange entry.now }
{
    head(entry);
    calls(entry.calls.as_slice());
    replies(entry.replies.as_slice());
    outcome(&entry.outcome);
    claims(entry.held.as_slice());
}

/// Entries are, whose text is short enough to be read.
pub(crate) fn entries(all: &[Entry])
    requires { length (journal_text all.now) ≤ 2 ^ 26 }
    ensures { AllByRecursion IsEntryInRange all.now }
{
    let mut rest = all;
    while let [first, behind @ ..] = rest {
        entry(first);
        rest = behind;
    }
}
