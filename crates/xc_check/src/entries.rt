ghost use Rattle.std.specs.Prelude.{◌≡◌, ◌<◌, ◌^◌, ◌&&◌, ℕ, All, List, IfOk, MatchResult, length};
ghost use Rattle.xc_check.specs.Fronts.{begins_shown};
ghost use Rattle.xc_check.specs.Judging.{IsJudged};
ghost use Rattle.xc_check.specs.Stopped.{IsStoppedAt};
ghost use Rattle.xc_check.specs.Untold.{lacked_memory, looks_at_last};
ghost use Rattle.xc_check.specs.TrueTexts.{telling};
ghost use Rattle.xc_data.specs.Limits.{KeepsLimits};
ghost use Rattle.xc_grounds.specs.Numbered.{AreNumbered};
ghost use Rattle.xc_model.specs.Live.{has_clients};
ghost use Rattle.xc_shown.specs.Shown.{bare};
ghost use Rattle.xc_shown.specs.declared.shown.Shown.{Shown as PlainShown};
ghost use Rattle.xc_text.specs.Scripts.{IsScript};

use crate::judging::Judging;
use std::alloc::Global;
use xc_data::{Cause, NoMemory, Outcome};
use xc_judge::Reason;
use xc_model::Rules;
use xc_shown::Shown;
use xc_text::Script;

/// The place of an entry, which counts from 0, the first reason for which it is false by its calls, and whether its text leaves open
/// that it is.
#[derive(Clone, Copy)]
pub(crate) struct Refused {
    pub(crate) place: usize,
    pub(crate) reason: Reason,
    pub(crate) is_untold: bool,
}

// A transaction was aborted for want of memory.
fn lacked_memory(outcome: &Outcome) -> bool
    ensures { result ≡ lacked_memory outcome.now }
{
    match outcome {
        Outcome::Aborted(report) => matches!(report.cause, Cause::NoMemory),
        Outcome::Committed { .. } => false,
    }
}

// What was asked last of such a one matters to this reason.
fn looks_at_last(reason: Reason) -> bool
    ensures { result ≡ looks_at_last reason }
{
    match reason {
        Reason::Records | Reason::Held => true,
        Reason::Numbers | Reason::Reply | Reason::Late | Reason::Story => false,
    }
}

// Whether a text leaves open that an entry is false for this reason, where its transaction lacked memory or didn't.
fn is_left_open(script: &Script, lacked: bool, reason: Reason) -> bool
    ensures { result ≡ has_clients script.now && (lacked && looks_at_last reason) }
{
    script.clients && (lacked && looks_at_last(reason))
}

/// Judges entries whose numbers go on in order, up to the first that is false.
pub(crate) fn judge_entries(
    alloc: Global,
    script: &Script,
    rules: &Rules,
    entries: Vec<Shown>,
) -> Result<Result<Judging, Refused>, NoMemory>
    requires script { IsScript script.now }
    requires limits { KeepsLimits script.now.outline }
    requires bare { All (λ (shown : PlainShown). bare shown.entry ≡ shown.entry) entries.items }
    requires numbered { (count : ℕ) × AreNumbered count (begins_shown entries.items) }
    requires few { length entries.items < 2 ^ 31 }
    ensures { (count : ℕ) → AreNumbered count (begins_shown entries.items)
        → IfOk result (λ r. MatchResult r (IsJudged (telling script.now rules.now) count entries.items)
        (IsStoppedAt (telling script.now rules.now) count entries.items)) }
{
    let mut left = entries;
    left.reverse();
    let mut judging = Judging::new(alloc, script)?;
    let mut place = 0;
    while let Some(shown) = left.pop() {
        let lacked = lacked_memory(&shown.entry.outcome);
        match judging.judge(script, rules, shown)? {
            Ok(next) => judging = next,
            Err(reason) => {
                return Ok(Err(Refused {
                    place,
                    reason,
                    is_untold: is_left_open(script, lacked, reason),
                }));
            }
        }
        place += 1;
    }
    Ok(Ok(judging))
}
