ghost use Rattle.std.specs.Prelude.{◌≡◌, ◌≢◌, None, map, string_bytes, true};
ghost use Rattle.std.specs.Prelude.{IfSome, IsSome, IsTrue};
ghost use Rattle.xc_app.specs.Followed.{IsFollowed};
ghost use Rattle.xc_app.specs.Headline.{IsFinished, IsChosenRun, IsSaidAlone, choice_of, needs_threads as needs_threads_with, seed_of};
ghost use Rattle.xc_app.specs.Lines.{usage_line};
ghost use Rattle.xc_app.specs.Parts.{IfFinished, IfStarted, IsStarted};
ghost use Rattle.xc_outcome.specs.Said.{IsAnswered, IsFullRun, IsOneOf, IsUndisturbed};
ghost use Rattle.xc_settings.specs.Options.{settings_of};

use crate::start::{Started, start};
use crate::turns::{needs_threads, take_together, take_turns};
use crate::{Finish, Status};
use std::alloc::Global;
use std::sync::Wait;
use std::thread::Threads;
use xc_edge::{Sink, Source};
use xc_host::Host;
use xc_outcome::{finish_run, finish_without};
use xc_runner::Pace;

/// What a run comes to before any thread is started.
#[derive(Drop)]
pub enum Unthreaded<H: Host> {
    /// It is finished: it needed no thread.
    Finished(Finish<H>),
    /// Several workers are to take its turns.
    Started(Started<H>),
}

/// As `xcalls_run`, but no thread is started, and it returns. Where several workers are to take the turns it gives the station before
/// the first one, and nothing has been written; in all other cases the run is finished.
pub fn run_without_threads<S: Source, K: Sink, H: Host>(
    alloc: Global,
    words: &[String],
    source: &mut S,
    sink: &mut K,
    host: H,
) -> Unthreaded<H>
    ensures finished { IfFinished result (λ finish. IsFinished H.model (map string_bytes words.now) (record {
      source = record { old = S.told source.old; new = S.told source.new };
      sink = record { old = K.told sink.old; new = K.told sink.new };
    }) host finish) }
    ensures started { IfStarted result (λ s. (needs_threads_with s.chosen ≡ true) × (sink.new ≡ sink.old) × IsStarted H.model
        (map string_bytes words.now) (record { old = S.told source.old; new = S.told source.new }) host s) }

    // The turns are those that the words choose: a schedule's in their order, and then rounds; with a seed and no schedule rounds alone.
    ensures followed { IfFinished result (λ finish. IfSome finish.end (IsFollowed H.model (map string_bytes words.now)
        (record { old = S.told source.old; new = S.told source.new }) host)) }

    // Nothing is read if the words are refused, or choose a seed.
    ensures unread { settings_of (map string_bytes words.now) ≡ None → source.new ≡ source.old }
    ensures seeded { IsSome (seed_of (map string_bytes words.now)) → source.new ≡ source.old }
{
    match start(alloc, words, source, host) {
        Ok(started) if needs_threads(&started.chosen) => Unthreaded::Started(started),
        Ok(started) => {
            let Started { station, chosen } = started;
            let station = take_turns(station, &chosen);
            Unthreaded::Finished(finish_run(alloc, sink, station, chosen.seed))
        }
        Err(not_run) => Unthreaded::Finished(finish_without(sink, not_run)),
    }
}

/// Reads a script from the source, runs it over the host, and writes its text to the sink. With a seed it runs the script that the
/// seed gives, and writes one line that sums up the run.
///
/// `words` are those of the command line after the program's name. With a script that isn't run,
/// one line is written that says why, and the host is given back. A source or a sink that fails ends
/// the run, with the end in `Finish` where the script had been run.
///
/// With several workers it may wait. What needs none is done by `run_without_threads`.
pub fn xcalls_run<
    R: AllocGlobal + Threads + Wait + Sync,
    S: Source,
    K: Sink,
    H: Host + Send,
    P: Pace + Sync,
>(rt: &R, words: &[String], source: &mut S, sink: &mut K, host: H, pace: &P) -> Finish<H>
    // A status was meant, and it has its cause. What is due with it was written, and it is the run's
    // status; or the sink failed after a front of that. A run that is meant to be done has an entry
    // for each transaction, which committed or aborted itself; so does one that left effects,
    // unless a job gave up.
    ensures answered { IsAnswered (choice_of (map string_bytes words.now)) usage_line H.model.takes_scripts (record {
      source = record { old = S.told source.old; new = S.told source.new };
      sink = record { old = K.told sink.old; new = K.told sink.new };
    }) result }

    // Nothing is read if the words are refused, or choose a seed.
    ensures unread { settings_of (map string_bytes words.now) ≡ None → source.new ≡ source.old }
    ensures seeded { IsSome (seed_of (map string_bytes words.now)) → source.new ≡ source.old }

    // The headline: running the journal's committed transactions one after another on the plain
    // machine, with the recorded faults, gives the replies, the final words, the final host, with what is kept for
    // later readers in front of its pipes and pairs, and the jobs' ends; aborted ones change only what their reports say
    // remains, and each conflict names a holder.
    ensures run { IfSome result.end (
        IsChosenRun H.model (map string_bytes words.now) (record { old = S.told source.old; new = S.told source.new }) host) }

    // Where no attempt met another, no fault is recorded and no job found the journal full, each transaction is done with: it
    // committed, unless it aborted itself. Only memory or the sink can have failed.
    ensures complete { IfSome result.end (λ end. IsUndisturbed end → IsFullRun result.status end) }

    // The turns are those that the words choose: a schedule's in their order, and then rounds; with a seed and no schedule rounds alone.
    ensures followed { IfSome result.end (
        IsFollowed H.model (map string_bytes words.now) (record { old = S.told source.old; new = S.told source.new }) host) }

    // The text, but for its lines on kept data, is a function of the script: jobs one after another, over a host that tells and
    // met no fault, write those of the script alone, but where memory ran out or the sink failed.
    ensures plain { IsTrue H.model.tells → result.status ≢ Status.NoMemory → result.status ≢ Status.WriteFault
        → IfSome result.end (IsSaidAlone (map string_bytes words.now) (K.told sink.old) (K.told sink.new)) }

    // Without a run the host is given back as it was handed in.
    ensures host { IfSome result.host (λ back. back ≡ host) }
    ensures one { IsOneOf result.end result.host }
{
    match run_without_threads(rt.alloc(), words, source, sink, host) {
        Unthreaded::Finished(finish) => finish,
        Unthreaded::Started(Started { station, chosen }) => {
            let station = take_together(rt, station, chosen.workers, pace);
            finish_run(rt.alloc(), sink, station, chosen.seed)
        }
    }
}
