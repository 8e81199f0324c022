//! The line that the program writes.

ghost use Rattle.std.specs.Prelude.{◌≡◌, ◌⊎◌, IfOk, string_bytes};
ghost use Rattle.xcalls_check.specs.Answers.{IsCheckSaid, IsCheckWritten};
ghost use Rattle.xcalls_check.specs.Answers.{no_line as no_line_of, untold_line as untold_line_of};
ghost use Rattle.xcalls_check.specs.Answers.{reason_name as reason_name_of, why_name as why_name_of};
ghost use Rattle.xc_check.specs.declared.verdict.Verdict.TheVariants.{Untold};
ghost use Rattle.xcalls_check.specs.declared.answer.CheckAnswer.TheVariants as answer;

use crate::answer::CheckAnswer;
use crate::status::CheckStatus;
use std::alloc::{AllocError, Global};
use xc_check::{CheckWhy, Verdict};
use xc_edge::{Sink, write_whole};
use xc_judge::Reason;

const USAGE: &str = "usage: xcalls_check [--attempts N] [--undo-tries N] [--prologue]\n";

// Why an entry is false.
fn reason_name(reason: Reason) -> &'static str
    ensures { result.now ≡ reason_name_of reason }
{
    match reason {
        Reason::Numbers => "numbers",
        Reason::Reply => "reply",
        Reason::Late => "late",
        Reason::Records => "records",
        Reason::Held => "held",
        Reason::Story => "story",
    }
}

// Why a text is false.
fn why_name(why: CheckWhy) -> &'static str
    ensures { result.now ≡ why_name_of why }
{
    match why {
        CheckWhy::TooLong => "toolong",
        CheckWhy::Script => "script",
        CheckWhy::Form => "form",
        CheckWhy::Entry(reason) => reason_name(reason),
        CheckWhy::Grounds => "grounds",
        CheckWhy::Tail => "tail",
    }
}

// The line that says no.
fn no_line(alloc: Global, line: u32, why: CheckWhy) -> Result<String, AllocError>
    ensures { IfOk result (λ text. string_bytes text ≡ no_line_of line why) }
{
    let mut text = String::new(alloc);
    write!(text, "no line {line} ")?;
    text.push_str(why_name(why))?;
    text.push_str("\n")?;
    Ok(text)
}

// The line that says that nothing can be said.
fn untold_line(alloc: Global, line: u32) -> Result<String, AllocError>
    ensures { IfOk result (λ text. string_bytes text ≡ untold_line_of line) }
{
    let mut text = String::new(alloc);
    write!(text, "untold line {line}")?;
    text.push_str("\n")?;
    Ok(text)
}

// Writes a line. With a sink that fails the status is another than was meant.
fn write<K: Sink>(sink: &mut K, meant: CheckStatus, line: &str) -> CheckStatus
    ensures { IsCheckWritten meant result line.now (record { old = K.told sink.old; new = K.told sink.new }) }
{
    match write_whole(sink, line.as_bytes()) {
        Ok(()) => meant,
        Err(_) => CheckStatus::WriteFault,
    }
}

// Says that there is no memory.
fn say_no_memory<K: Sink>(sink: &mut K) -> CheckStatus
    ensures { IsCheckSaid answer.NoMemory result (record { old = K.told sink.old; new = K.told sink.new }) }
{
    write(sink, CheckStatus::NoMemory, "no memory\n")
}

// Says that nothing can be said of the entry at this line. Without memory for that it says that there is none.
fn say_untold<K: Sink>(alloc: Global, sink: &mut K, line: u32) -> CheckStatus
    ensures { IsCheckSaid (answer.Judged (Untold line)) result (record { old = K.told sink.old; new = K.told sink.new })
        ⊎ IsCheckSaid answer.NoMemory result (record { old = K.told sink.old; new = K.told sink.new }) }
{
    match untold_line(alloc, line) {
        Ok(text) => write(sink, CheckStatus::Untold, text.as_str()),
        Err(_) => say_no_memory(sink),
    }
}

// Says a verdict. Without memory for its line it says that there is none.
fn say_verdict<K: Sink>(alloc: Global, sink: &mut K, verdict: Verdict) -> CheckStatus
    ensures { IsCheckSaid (answer.Judged verdict) result (record { old = K.told sink.old; new = K.told sink.new })
        ⊎ IsCheckSaid answer.NoMemory result (record { old = K.told sink.old; new = K.told sink.new }) }
{
    match verdict {
        Verdict::Yes => write(sink, CheckStatus::Yes, "yes\n"),
        Verdict::No { line, why } => match no_line(alloc, line, why) {
            Ok(text) => write(sink, CheckStatus::No, text.as_str()),
            Err(_) => say_no_memory(sink),
        },
        Verdict::Untold { line } => say_untold(alloc, sink, line),
    }
}

/// Says what was found. Without memory for its line it says that there is none.
pub fn say<K: Sink>(alloc: Global, sink: &mut K, found: CheckAnswer) -> CheckStatus
    ensures { IsCheckSaid found result (record { old = K.told sink.old; new = K.told sink.new })
        ⊎ IsCheckSaid answer.NoMemory result (record { old = K.told sink.old; new = K.told sink.new }) }
{
    match found {
        CheckAnswer::Judged(verdict) => say_verdict(alloc, sink, verdict),
        CheckAnswer::Usage => write(sink, CheckStatus::Usage, USAGE),
        CheckAnswer::ReadFault => write(sink, CheckStatus::ReadFault, "read fault\n"),
        CheckAnswer::NoMemory => say_no_memory(sink),
    }
}
