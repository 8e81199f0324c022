ghost use Rattle.std.specs.Prelude.{◌≡◌, ◌++◌, OnOk};
ghost use Rattle.xc_print.specs.Entries.{cause_text, attempt_text, outcome_word, outcome_cause, head_line};
ghost use Rattle.xc_print.specs.Entries.{call_line, call_lines, late_line, late_lines, outcome_lines, entry_text, journal_text};

use crate::calls::push_call;
use crate::objects::{push_held, push_object};
use crate::paper::Paper;
use crate::records::{push_remains, push_undos};
use crate::replies::{push_late_end, push_reply};
use xc_data::{Call, Cause, Entry, LateEnd, Outcome, Reply};

/// Why a transaction was aborted.
pub fn push_cause<P: Paper>(out: &mut P, cause: &Cause) -> Result<(), P::Error>
    ensures { OnOk result (P.said out.new ≡ P.said out.old ++ cause_text cause.now) }
{
    match cause {
        Cause::Asked => out.text("asked"),
        Cause::Conflict { object, holder, at } => {
            out.text("conflict ")?;
            push_object(out, object)?;
            out.labelled(" holder t", *holder as u64)?;
            out.labelled(" at ", *at as u64)
        }
        Cause::Revoked { object, by, at } => {
            out.text("revoked ")?;
            push_object(out, object)?;
            out.labelled(" by t", *by as u64)?;
            out.labelled(" at ", *at as u64)
        }
        Cause::NoMemory => out.text("no memory"),
        Cause::Stuck { failed } => out.labelled("stuck undo ", *failed as u64),
    }
}

fn push_attempt<P: Paper>(out: &mut P, entry: &Entry) -> Result<(), P::Error>
    ensures { OnOk result (P.said out.new ≡ P.said out.old ++ attempt_text entry.now) }
{
    let (tx, job) = (entry.tx, entry.job);
    let (rank, began) = (entry.rank, entry.began);
    out.labelled(" t", tx as u64)?;
    out.labelled(" job ", job as u64)?;
    out.labelled(" rank ", rank as u64)?;
    out.labelled(" began ", began as u64)
}

fn push_word<P: Paper>(out: &mut P, outcome: &Outcome) -> Result<(), P::Error>
    ensures { OnOk result (P.said out.new ≡ P.said out.old ++ outcome_word outcome.now) }
{
    match outcome {
        Outcome::Committed { .. } => out.text("commit"),
        Outcome::Aborted(_) => out.text("abort"),
    }
}

fn push_outcome_cause<P: Paper>(out: &mut P, outcome: &Outcome) -> Result<(), P::Error>
    ensures { OnOk result (P.said out.new ≡ P.said out.old ++ outcome_cause outcome.now) }
{
    match outcome {
        Outcome::Committed { .. } => Ok(()),
        Outcome::Aborted(report) => {
            out.text(" ")?;
            push_cause(out, &report.cause)
        }
    }
}

fn push_head<P: Paper>(out: &mut P, entry: &Entry) -> Result<(), P::Error>
    ensures { OnOk result (P.said out.new ≡ P.said out.old ++ head_line entry.now) }
{
    push_word(out, &entry.outcome)?;
    push_attempt(out, entry)?;
    push_outcome_cause(out, &entry.outcome)?;
    out.text("\n")
}

/// The line of a call and its reply.
pub fn push_call_line<P: Paper>(out: &mut P, call: &Call, reply: &Reply) -> Result<(), P::Error>
    ensures { OnOk result (P.said out.new ≡ P.said out.old ++ call_line call.now reply.now) }
{
    push_call(out, call)?;
    push_reply(out, reply)?;
    out.text("\n")
}

fn push_calls<P: Paper>(out: &mut P, calls: &[Call], replies: &[Reply]) -> Result<(), P::Error>
    ensures { OnOk result (P.said out.new ≡ P.said out.old ++ call_lines calls.now replies.now) }
{
    for (at, call) in calls.iter().enumerate() {
        let Some(reply) = replies.get(at) else {
            return Ok(());
        };
        push_call_line(out, call, reply)?;
    }
    Ok(())
}

fn push_late<P: Paper>(out: &mut P, number: usize, end: LateEnd) -> Result<(), P::Error>
    ensures { OnOk result (P.said out.new ≡ P.said out.old ++ late_line number end) }
{
    out.labelled("  late ", number as u64)?;
    out.text(" = ")?;
    push_late_end(out, end)?;
    out.text("\n")
}

fn push_lates<P: Paper>(out: &mut P, ends: &[LateEnd]) -> Result<(), P::Error>
    ensures { OnOk result (P.said out.new ≡ P.said out.old ++ late_lines 1 ends.now) }
{
    for (at, end) in ends.iter().enumerate() {
        push_late(out, at + 1, *end)?;
    }
    Ok(())
}

fn push_outcome<P: Paper>(out: &mut P, outcome: &Outcome) -> Result<(), P::Error>
    ensures { OnOk result (P.said out.new ≡ P.said out.old ++ outcome_lines outcome.now) }
{
    match outcome {
        Outcome::Committed { late } => push_lates(out, late.as_slice()),
        Outcome::Aborted(report) => {
            push_undos(out, report.records.as_slice())?;
            push_remains(out, report.records.as_slice())
        }
    }
}

/// An entry, with its lines.
#[tactic(auto, using(crate::proofs::Pieces::four_pieces))]
pub fn push_entry<P: Paper>(out: &mut P, entry: &Entry) -> Result<(), P::Error>
    ensures { OnOk result (P.said out.new ≡ P.said out.old ++ entry_text entry.now) }
{
    push_head(out, entry)?;
    push_calls(out, entry.calls.as_slice(), entry.replies.as_slice())?;
    push_outcome(out, &entry.outcome)?;
    push_held(out, entry.held.as_slice())
}

/// All entries, each with its lines.
pub fn push_journal<P: Paper>(out: &mut P, journal: &[Entry]) -> Result<(), P::Error>
    ensures { OnOk result (P.said out.new ≡ P.said out.old ++ journal_text journal.now) }
{
    for entry in journal {
        push_entry(out, entry)?;
    }
    Ok(())
}
