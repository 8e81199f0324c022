ghost use Rattle.std.specs.Prelude.{◌≡◌, None, map, string_bytes, IfSome};
ghost use Rattle.xc_coop.specs.Headline.{coop_choice_of};
ghost use Rattle.xc_coop.specs.Lines.{coop_usage_line};
ghost use Rattle.xc_coop.specs.Options.{coop_settings_of};
ghost use Rattle.xc_outcome.specs.Runs.{IsRun};
ghost use Rattle.xc_outcome.specs.Said.{IsAnswered, IsFullRun, IsOneOf, IsUndisturbed};

use crate::Finish;
use crate::start::{CoopStarted, start};
use crate::turns::take_cooperatively;
use std::alloc::AllocGlobal;
use std::random::RandomSource;
use std::sync::Wait;
use xc_edge::{Sink, Source};
use xc_host::Host;
use xc_outcome::{finish_run, finish_without};

/// Reads a script from the source, runs it over the host in one thread, and writes its text to the sink. All its jobs are polled,
/// each for the turns of a share at a time, and none is started in a thread.
///
/// `words` are those of the command line after the program's name. With a script that isn't run,
/// one line is written that says why, and the host is given back. A source or a sink that fails ends
/// the run, with the end in `Finish` where the script had been run. It may wait.
pub fn coop_run<R: AllocGlobal + Wait + RandomSource, S: Source, K: Sink, H: Host>(
    rt: &R,
    words: &[String],
    source: &mut S,
    sink: &mut K,
    host: H,
) -> Finish<H>
    // A status was meant, and it has its cause. What is due with it was written, and it is the run's
    // status; or the sink failed after a front of that. A run that is meant to be done has an entry
    // for each transaction, which committed or aborted itself; so does one that left effects,
    // unless a job gave up.
    ensures answered { IsAnswered (coop_choice_of (map string_bytes words.now)) coop_usage_line H.model.takes_scripts (record {
      source = record { old = S.told source.old; new = S.told source.new };
      sink = record { old = K.told sink.old; new = K.told sink.new };
    }) result }

    // Nothing is read if the words are refused.
    ensures unread { coop_settings_of (map string_bytes words.now) ≡ None → source.new ≡ source.old }

    // The headline: running the journal's committed transactions one after another on the plain
    // machine, with the recorded faults, gives the replies, the final words, the final host, with what is kept for
    // later readers in front of its pipes and pairs, and the jobs' ends; aborted ones change only what their reports say
    // remains, and each conflict names a holder.
    ensures run { IfSome result.end (IsRun H.model (coop_choice_of (map string_bytes words.now))
        (record { old = S.told source.old; new = S.told source.new }) host) }

    // Where no attempt met another, no fault is recorded and no job found the journal full, each transaction is done with: it
    // committed, unless it aborted itself. Only memory or the sink can have failed.
    ensures complete { IfSome result.end (λ end. IsUndisturbed end → IsFullRun result.status end) }

    // Without a run the host is given back as it was handed in.
    ensures host { IfSome result.host (λ back. back ≡ host) }
    ensures one { IsOneOf result.end result.host }
{
    match start(rt.alloc(), words, source, host) {
        Ok(started) => {
            let CoopStarted { station, chosen } = started;
            let station = take_cooperatively(rt, station, chosen.share);
            finish_run(rt.alloc(), sink, station, None)
        }
        Err(not_run) => finish_without(sink, not_run),
    }
}
