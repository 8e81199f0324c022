ghost use Rattle.std.specs.Prelude.{◌≡◌, ◌≤◌, ◌^◌, ℕ, List, IfOk, length};
ghost use Rattle.xc_check.specs.TrueTexts.{IsTrueAsPrinted, script_by, telling};
ghost use Rattle.xc_check.specs.Verdicts.{AcceptsTrueTexts, IsAccepting, IsVerdict, IsVerdictOn};
ghost use Rattle.xc_check.specs.declared.verdict.Verdict.TheVariants.{No};
ghost use Rattle.xc_data.specs.Limits.{KeepsLimits};
ghost use Rattle.xc_data.specs.declared.entry.Entry.{Entry as PlainEntry};
ghost use Rattle.xc_data.specs.declared.entry.JobLine.{JobLine as PlainJobLine};
ghost use Rattle.xc_data.specs.declared.entry.KeptItem.{KeptItem as PlainKeptItem};
ghost use Rattle.xc_sheet.specs.Ends.{end_lines};
ghost use Rattle.xc_sheet.specs.Sheets.{AreWholeFrom, HaveText};
ghost use Rattle.xc_sheet.specs.declared.places.LinePlace.TheVariants.{Between};
ghost use Rattle.xc_model.specs.Live.{has_clients};
ghost use Rattle.xc_text.specs.Scripts.{IsScript};

use crate::verdict::{CheckWhy, Verdict};
use crate::whole::check_entries;
use std::alloc::Global;
use xc_data::{Chunk, Items, NoMemory};
use xc_judge::Basis;
use xc_model::Rules;
use xc_sheet::{Ending, Line, Sheet, Unreadable, read_sheet};
use xc_shown::{Parted, part};
use xc_text::{ParseErr, Script, parse};

// Checks the lines of a whole text.
fn check_lines(
    alloc: Global,
    script: &Script,
    rules: &Rules,
    lines: Items<Line>,
) -> Result<Verdict, NoMemory>
    requires script { IsScript script.now }
    requires limits { KeepsLimits script.now.outline }
    requires rules { 1 ≤ rules.now.attempts }
    requires text { (text : List ℕ) × AreWholeFrom Between lines text × (length text ≤ 2 ^ 26) }
    requires some { HaveText lines }
    ensures verdict { (text : List ℕ) → AreWholeFrom Between lines text → IfOk result (IsVerdictOn (telling script.now rules.now) text) }
    ensures only { (journal : List PlainEntry) (jobs : List PlainJobLine) (words : List ℕ) (kept : List PlainKeptItem)
        → IsTrueAsPrinted (telling script.now rules.now) journal jobs words kept → lines ≡ end_lines journal jobs words kept
        → IfOk result (IsAccepting (has_clients script.now)) }
{
    let Parted { entries, tail } = part(alloc, lines)?;
    check_entries(alloc, script, rules, entries, tail.as_slice())
}

// What is said where the text itself need not be looked at any further.
fn refused(line: u32, why: CheckWhy) -> Verdict
    ensures { result ≡ No line why }
{
    Verdict::No { line, why }
}

// The script that was read, or the prologue of clients.
fn script_by(script: Script, clients: bool) -> Script
    ensures { result ≡ script_by clients script }
{
    if clients {
        return script.for_clients();
    }
    script
}

/// Checks a printed journal against the script and the rules of its run. Where clients asked its transactions the script is their
/// prologue, whose jobs they are. The time is in proportion to the lengths of both, but for what is sorted: the numbers of
/// transactions, and the holders of conflicts.
pub fn check(alloc: Global, script: &Chunk, basis: &Basis, text: &[u8]) -> Result<Verdict, NoMemory>
    requires rules { 1 ≤ basis.now.rules.attempts }
    ensures verdict { IfOk result (IsVerdict script.now basis.now text.now) }
    ensures only { IfOk result (AcceptsTrueTexts script.now basis.now text.now) }
{
    let sheet = match read_sheet(alloc, text) {
        Ok(sheet) => sheet,
        Err(Unreadable::TooLong) => return Ok(refused(0, CheckWhy::TooLong)),
        Err(Unreadable::NoMemory) => return Err(NoMemory),
    };
    let script = match parse(alloc, script) {
        Ok(script) => script,
        Err(
            ParseErr::Refused {
                line: _line,
                why: _why,
            },
        ) => return Ok(refused(0, CheckWhy::Script)),
        Err(ParseErr::NoMemory) => return Err(NoMemory),
    };
    let script = script_by(script, basis.clients);
    let Sheet { lines, ending } = sheet;
    match ending {
        Ending::Whole => check_lines(alloc, &script, &basis.rules, lines),
        Ending::Broken { line } => Ok(refused(line, CheckWhy::Form)),
    }
}
