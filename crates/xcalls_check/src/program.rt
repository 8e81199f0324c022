ghost use Rattle.std.specs.Prelude.{◌≡◌, ◌≤◌, IfOk, None, OnErr, Some, map, string_bytes};
ghost use Rattle.xc_edge.specs.Streams.{ConsumesUpTo};
ghost use Rattle.xcalls_check.specs.Answers.{IsCheckAnswered, IsCheckCaused, IsFound, IsCheckWordless, most_input};
ghost use Rattle.xcalls_check.specs.Settings.{check_settings_of};

use crate::answer::CheckAnswer;
use crate::halves::halves;
use crate::lines::say;
use crate::settings::check_settings;
use crate::status::CheckStatus;
use std::alloc::{AllocGlobal, Global};
use std::io;
use xc_check::{Basis, CheckWhy, Verdict, check};
use xc_data::{Chunk, NoMemory};
use xc_edge::{ReadErr, Sink, Source, read_up_to};
use xc_options::SettingsErr;

// The most bytes that are read: one more than a script, the line between and a text of the largest sizes.
const MOST_INPUT: usize = 68_157_446;

// What is found of the bytes that came.
fn verdict_on(alloc: Global, basis: &Basis, input: &[u8]) -> Result<Verdict, NoMemory>
    requires rules { 1 ≤ basis.now.rules.attempts }
    ensures { IfOk result (IsFound basis.now input.now) }
{
    if input.len() == MOST_INPUT {
        return Ok(Verdict::No {
            line: 0,
            why: CheckWhy::TooLong,
        });
    }
    let (script, text) = halves(input);
    check(alloc, &Chunk::new(alloc, script)?, basis, text)
}

// What is to be said of the source, by what the words chose.
fn answer_by<S: Source>(alloc: Global, basis: &Basis, source: &mut S) -> CheckAnswer
    requires rules { 1 ≤ basis.now.rules.attempts }
    ensures caused { IsCheckCaused (Some basis.now) (record { old = S.told source.old; new = S.told source.new }) result }
    ensures few { ConsumesUpTo most_input (S.told source.old) (S.told source.new) }
{
    let input = match read_up_to(alloc, source, MOST_INPUT) {
        Ok(input) => input,
        Err(ReadErr::Failed) => return CheckAnswer::ReadFault,
        Err(ReadErr::NoMemory) => return CheckAnswer::NoMemory,
    };
    match verdict_on(alloc, basis, input.as_slice()) {
        Ok(verdict) => CheckAnswer::Judged(verdict),
        Err(NoMemory) => CheckAnswer::NoMemory,
    }
}

// What is to be said of the words and the source.
fn answer<S: Source>(alloc: Global, words: &[String], source: &mut S) -> CheckAnswer
    ensures caused { IsCheckCaused (check_settings_of (map string_bytes words.now))
        (record { old = S.told source.old; new = S.told source.new }) result }
    ensures unread { check_settings_of (map string_bytes words.now) ≡ None → source.new ≡ source.old }
    ensures few { ConsumesUpTo most_input (S.told source.old) (S.told source.new) }
{
    match check_settings(alloc, words) {
        Ok(basis) => answer_by(alloc, &basis, source),
        Err(SettingsErr::Usage) => CheckAnswer::Usage,
        Err(SettingsErr::NoMemory) => CheckAnswer::NoMemory,
    }
}

/// Reads a script and a printed journal from the source, and writes to the sink whether the journal is true. Where the words say so it
/// is a journal of clients, and their prologue stands in place of the script.
///
/// `words` are those of the command line after the program's name.
pub fn check_run<R: AllocGlobal, S: Source, K: Sink>(
    rt: &R,
    words: &[String],
    source: &mut S,
    sink: &mut K,
) -> CheckStatus
    // What was meant has its cause in the words and the bytes that came. It was said, or the sink failed after a front of that.
    ensures answered { IsCheckAnswered (map string_bytes words.now) (record { old = S.told source.old; new = S.told source.new })
        (record { old = K.told sink.old; new = K.told sink.new }) result }

    // Nothing is read if the words are refused.
    ensures unread { check_settings_of (map string_bytes words.now) ≡ None → source.new ≡ source.old }

    // At most `most_input` bytes are read.
    ensures few { ConsumesUpTo most_input (S.told source.old) (S.told source.new) }
{
    let found = answer(rt.alloc(), words, source);
    say(rt.alloc(), sink, found)
}

// The words could not be had: for lack of memory, or since one is no text, which no option takes.
fn say_wordless<K: Sink>(alloc: Global, sink: &mut K, error: io::Error) -> CheckStatus
    ensures { IsCheckWordless result (record { old = K.told sink.old; new = K.told sink.new }) }
{
    if error.kind() == io::ErrorKind::OutOfMemory {
        return say(alloc, sink, CheckAnswer::NoMemory);
    }
    say(alloc, sink, CheckAnswer::Usage)
}

/// Runs the whole program, with the words of its command line if they could be had.
pub fn run_program<R: AllocGlobal, S: Source, K: Sink>(
    rt: &R,
    words: io::Result<Vec<String>>,
    source: &mut S,
    sink: &mut K,
) -> CheckStatus
    // It is answered as by `check_run`.
    ensures answered { IfOk words (λ words. IsCheckAnswered (map string_bytes words.items)
        (record { old = S.told source.old; new = S.told source.new }) (record { old = K.told sink.old; new = K.told sink.new }) result) }

    // Nothing is read if the words are refused.
    ensures unread { IfOk words (λ words. check_settings_of (map string_bytes words.items) ≡ None → source.new ≡ source.old) }

    // At most `most_input` bytes are read.
    ensures few { ConsumesUpTo most_input (S.told source.old) (S.told source.new) }

    // Without its words nothing is read.
    ensures wordless { OnErr words (
        IsCheckWordless result (record { old = K.told sink.old; new = K.told sink.new }) × (source.new ≡ source.old)) }
{
    match words {
        Ok(words) => check_run(rt, words.as_slice(), source, sink),
        Err(error) => say_wordless(rt.alloc(), sink, error),
    }
}
