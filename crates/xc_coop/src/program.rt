ghost use Rattle.std.specs.Prelude.{◌≡◌, IfOk, None, OnErr, map, string_bytes};
ghost use Rattle.xc_coop.specs.Headline.{IsCoopFinished};
ghost use Rattle.xc_coop.specs.Lines.{coop_usage_line};
ghost use Rattle.xc_coop.specs.Options.{coop_settings_of};
ghost use Rattle.xc_outcome.specs.Said.{IsWordless};

use crate::usage::usage;
use crate::{Finish, Status, coop_run};
use std::alloc::AllocGlobal;
use std::random::RandomSource;
use std::sync::Wait;
use std::{io, mem};
use xc_edge::{Sink, Source};
use xc_host::Host;
use xc_outcome::{Due, write_due};

// The words could not be had: for lack of memory, or since one is no text, which no option takes.
fn say_wordless<K: Sink>(sink: &mut K, error: io::Error) -> Status
    ensures { IsWordless coop_usage_line result (record { old = K.told sink.old; new = K.told sink.new }) }
{
    if error.kind() == io::ErrorKind::OutOfMemory {
        return write_due(sink, Status::NoMemory, &Due::NoMemory);
    }
    write_due(sink, Status::Usage, &usage())
}

/// Runs the whole program, with the words of its command line if they could be had. What the run leaves
/// is not freed: the system takes all memory back at once, right after.
///
/// Only `main` may wait; it hands that on as `rt`.
pub fn run_program<R: AllocGlobal + Wait + RandomSource, S: Source, K: Sink, H: Host>(
    rt: &R,
    words: io::Result<Vec<String>>,
    source: &mut S,
    sink: &mut K,
    host: H,
) -> Status
    // It is as `coop_run` finishes, of which only the status is left.
    ensures finished { IfOk words (λ words. (finish : Finish H) × (finish.status ≡ result)
        × IsCoopFinished H.model (map string_bytes words.items) (record {
          source = record { old = S.told source.old; new = S.told source.new };
          sink = record { old = K.told sink.old; new = K.told sink.new };
        }) host finish) }

    // Nothing is read if the words are refused.
    ensures unread { IfOk words (λ words. coop_settings_of (map string_bytes words.items) ≡ None → source.new ≡ source.old) }

    // Without its words nothing is read.
    ensures wordless { OnErr words (
        IsWordless coop_usage_line result (record { old = K.told sink.old; new = K.told sink.new }) × (source.new ≡ source.old)) }
{
    match words {
        Ok(words) => {
            let finish = coop_run(rt, words.as_slice(), source, sink, host);
            let status = finish.status;
            mem::forget(finish);
            status
        }
        Err(error) => say_wordless(sink, error),
    }
}
