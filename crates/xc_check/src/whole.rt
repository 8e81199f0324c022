ghost use Rattle.std.specs.Prelude.{◌≡◌, ◌≤◌, ◌<◌, ◌^◌, All, List, IfOk, length};
ghost use Rattle.xc_check.specs.Judging.{IsJudged, IsTrueSoFar};
ghost use Rattle.xc_check.specs.Refusals.{AreFirstLines, line_behind};
ghost use Rattle.xc_check.specs.Stopped.{IsStoppedAt};
ghost use Rattle.xc_check.specs.TrueTexts.{telling};
ghost use Rattle.xc_check.specs.Verdicts.{IsVerdictIn, AreTotalsOf};
ghost use Rattle.xc_data.specs.Limits.{KeepsLimits};
ghost use Rattle.xc_grounds.specs.Numbered.{IsFirstMisnumbered};
ghost use Rattle.xc_check.specs.Fronts.{begins_shown};
ghost use Rattle.xc_shown.specs.Shown.{bare, shown_lines};
ghost use Rattle.xc_model.specs.Setting.{Setting};
ghost use Rattle.xc_sheet.specs.declared.lines.Line.{Line as PlainLine};
ghost use Rattle.xc_shown.specs.declared.shown.Shown.{Shown as PlainShown};
ghost use Rattle.xc_text.specs.Scripts.{IsScript};

use crate::entries::{Refused, judge_entries};
use crate::judging::Judging;
use crate::lists::{begins_of, first_lines, jobs_left};
use crate::verdict::{CheckWhy, Verdict};
use std::alloc::Global;
use xc_data::{Items, NoMemory};
use xc_grounds::{first_groundless, first_misnumbered};
use xc_judge::Reason;
use xc_model::Rules;
use xc_print::Totals;
use xc_sheet::Line;
use xc_shown::Shown;
use xc_tail::{is_tail, totals_of_shown};
use xc_text::Script;

// Checks the lines behind entries that are true. They begin at this line.
fn check_tail(
    alloc: Global,
    script: &Script,
    rules: &Rules,
    judging: Judging,
    line: u32,
    totals: Totals,
    tail: &[Line],
) -> Result<Verdict, NoMemory>
    requires rules { 1 ≤ rules.now.attempts }
    requires judged { (entries : List PlainShown) × IsTrueSoFar (telling script.now rules.now) entries judging }
    ensures { (entries : List PlainShown) → IsTrueSoFar (telling script.now rules.now) entries judging → line ≡ line_behind entries
        → AreTotalsOf entries totals → IfOk result (IsVerdictIn (telling script.now rules.now) entries tail.now) }
{
    let count = judging.parts.as_slice().len();
    let left = jobs_left(alloc, script, &judging)?;
    let world = judging.progress.into_world();
    if is_tail(rules, count, left.as_slice(), world, totals, tail)? {
        return Ok(Verdict::Yes);
    }
    Ok(Verdict::No {
        line,
        why: CheckWhy::Tail,
    })
}

// Checks conflicts and revocations of entries that are true but for these, and the lines behind them.
fn check_behind(
    alloc: Global,
    script: &Script,
    rules: &Rules,
    judging: Judging,
    lines: &[u32],
    totals: Totals,
    tail: &[Line],
) -> Result<Verdict, NoMemory>
    requires rules { 1 ≤ rules.now.attempts }
    requires judged { (entries : List PlainShown) × IsJudged (telling script.now rules.now) (length entries) entries judging
        × AreFirstLines entries lines.now × (length entries < 2 ^ 31) }
    ensures { (entries : List PlainShown) → IsJudged (telling script.now rules.now) (length entries) entries judging
        → AreFirstLines entries lines.now → AreTotalsOf entries totals
        → IfOk result (IsVerdictIn (telling script.now rules.now) entries tail.now) }
{
    match first_groundless(alloc, !script.clients, judging.parts.as_slice())? {
        Some(place) => Ok(Verdict::No {
            line: lines[place as usize],
            why: CheckWhy::Grounds,
        }),
        None => {
            let line = lines[judging.parts.as_slice().len()];
            check_tail(alloc, script, rules, judging, line, totals, tail)
        }
    }
}

// An entry is the first that is false, or of which it can't be said.
fn refused_at(lines: &[u32], refused: Refused) -> Verdict
    requires { refused.place < length lines.now }
    ensures { (s : Setting) (entries : List PlainShown) (tail : List PlainLine) → AreFirstLines entries lines.now
        → IsStoppedAt s (length entries) entries refused → IsVerdictIn s entries tail result }
{
    let line = lines[refused.place];
    if refused.is_untold {
        return Verdict::Untold { line };
    }
    Verdict::No {
        line,
        why: CheckWhy::Entry(refused.reason),
    }
}

// The number of the entry at this place is the first that is wrong: it is false, or one of those in front of it.
fn refuse(
    alloc: Global,
    script: &Script,
    rules: &Rules,
    entries: Vec<Shown>,
    place: usize,
    lines: &[u32],
) -> Result<Verdict, NoMemory>
    requires script { IsScript script.now }
    requires limits { KeepsLimits script.now.outline }
    requires bare { All (λ (shown : PlainShown). bare shown.entry ≡ shown.entry) entries.items }
    requires few { length entries.items < 2 ^ 31 }
    requires place { IsFirstMisnumbered (length entries.items) (begins_shown entries.items) place }
    requires lines { AreFirstLines entries.items lines.now }
    ensures { (tail : List PlainLine) → IfOk result (IsVerdictIn (telling script.now rules.now) entries.items tail) }
{
    let mut front = entries;
    front.truncate(place);
    match judge_entries(alloc, script, rules, front)? {
        Ok(_judging) => Ok(refused_at(
            lines,
            Refused {
                place,
                reason: Reason::Numbers,
                is_untold: false,
            },
        )),
        Err(refused) => Ok(refused_at(lines, refused)),
    }
}

/// Checks entries as their text shows them, and the lines behind them.
pub(crate) fn check_entries(
    alloc: Global,
    script: &Script,
    rules: &Rules,
    entries: Items<Shown>,
    tail: &[Line],
) -> Result<Verdict, NoMemory>
    requires script { IsScript script.now }
    requires limits { KeepsLimits script.now.outline }
    requires rules { 1 ≤ rules.now.attempts }
    requires bare { All (λ (shown : PlainShown). bare shown.entry ≡ shown.entry) entries }
    requires few { length (shown_lines entries) ≤ 2 ^ 26 }
    ensures { IfOk result (IsVerdictIn (telling script.now rules.now) entries tail.now) }
{
    let lines = first_lines(alloc, entries.as_slice())?;
    let totals = totals_of_shown(entries.as_slice());
    let begins = begins_of(alloc, entries.as_slice())?;
    let misnumbered = first_misnumbered(alloc, begins.as_slice())?;
    let entries = entries.into_vec();
    let lines = lines.as_slice();
    if let Some(place) = misnumbered {
        return refuse(alloc, script, rules, entries, place as usize, lines);
    }
    match judge_entries(alloc, script, rules, entries)? {
        Ok(judging) => check_behind(alloc, script, rules, judging, lines, totals, tail),
        Err(refused) => Ok(refused_at(lines, refused)),
    }
}
