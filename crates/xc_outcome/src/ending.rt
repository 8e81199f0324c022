//! From a station all of whose jobs have ended to what is written of them.

ghost use Rattle.std.specs.Prelude.{◌≡◌, ◌≤◌, ℕ, List, None, Option, Some, length};
ghost use Rattle.xc_model.specs.Live.{IsScripted};
ghost use Rattle.xc_station.specs.Stations.{NobodyLives};
ghost use Rattle.xc_station.specs.declared.run_result.End.{End as PlainEnd};
ghost use Rattle.xc_outcome.specs.Due.{due_bytes};
ghost use Rattle.xc_outcome.specs.Outcomes.{IsEndOf, IsWrittenAs};
ghost use Rattle.xc_outcome.specs.Runs.{written_of};
ghost use Rattle.xc_outcome.specs.Said.{IsDueWithEnd, IsEndSaid};
ghost use Rattle.xc_outcome.specs.declared.finish.Status.{Status as PlainStatus};

use crate::{Due, Finish, NotRun, Status, status_of, write_due};
use std::alloc::Global;
use xc_edge::Sink;
use xc_generator::summary;
use xc_host::Host;
use xc_print::write_text;
use xc_station::{End, Station};

// The status that a run with this end is meant to have where there is memory for what is due.
fn meant_of<H>(end: &End<H>) -> Status
    requires few { length end.now.journal.items ≤ 10000 }
    requires unparted { end.now.journal.gone ≡ 0 }
    ensures { (seed : Option ℕ) → IsDueWithEnd seed result end.now (written_of seed end.now) }
{
    status_of(end)
}

// The line that sums up a run is written, or that there is no memory for it.
fn write_summary<K: Sink, H>(alloc: Global, sink: &mut K, end: &End<H>, seed: u64) -> Status
    requires few { length end.now.journal.items ≤ 10000 }
    requires unparted { end.now.journal.gone ≡ 0 }
    ensures { IsEndSaid (Some seed) end.now result (record { old = K.told sink.old; new = K.told sink.new }) }
{
    let meant = meant_of(end);
    match summary(alloc, end.journal.as_slice(), end.words.as_slice(), seed) {
        Ok(line) => write_due(sink, meant, &Due::Whole(line)),
        Err(_) => write_due(sink, Status::NoMemory, &Due::NoMemory),
    }
}

// The text of a run is written, or that there is no memory for a piece of it.
fn write_journal<K: Sink, H>(alloc: Global, sink: &mut K, end: &End<H>) -> Status
    requires few { length end.now.journal.items ≤ 10000 }
    requires unparted { end.now.journal.gone ≡ 0 }
    ensures { IsEndSaid None end.now result (record { old = K.told sink.old; new = K.told sink.new }) }
{
    let meant = meant_of(end);
    let (jobs, kept) = (end.jobs.as_slice(), end.kept.as_slice());
    match write_text(
        alloc,
        sink,
        end.journal.as_slice(),
        jobs,
        end.words.as_slice(),
        kept,
    ) {
        Ok(Ok(())) => meant,
        Ok(Err(_)) => Status::WriteFault,
        Err(_) => write_due(sink, Status::NoMemory, &Due::NoMemory),
    }
}

// What is due with an end is written: its text, or with a seed the line that sums it up.
fn write_end<K: Sink, H>(alloc: Global, sink: &mut K, end: &End<H>, seed: Option<u64>) -> Status
    requires few { length end.now.journal.items ≤ 10000 }
    requires unparted { end.now.journal.gone ≡ 0 }
    ensures { IsEndSaid seed end.now result (record { old = K.told sink.old; new = K.told sink.new }) }
{
    match seed {
        Some(seed) => write_summary(alloc, sink, end, seed),
        None => write_journal(alloc, sink, end),
    }
}

/// All jobs of a script have ended: what is due with that end is written.
pub fn finish_run<K: Sink, H: Host>(
    alloc: Global,
    sink: &mut K,
    station: Station<H>,
    seed: Option<u64>,
) -> Finish<H>
    requires ended { NobodyLives station.jobs }
    requires scripted { IsScripted station.opening.script }
    ensures end { (end : PlainEnd H) × (result.end ≡ Some end) × IsEndOf H.model station end × (meant : PlainStatus) × (due : List ℕ)
        × IsDueWithEnd seed meant end due × IsWrittenAs meant due result.status (record { old = K.told sink.old; new = K.told sink.new }) }
    ensures host { result.host ≡ None }
{
    let end = station.finish();
    let status = write_end(alloc, sink, &end, seed);
    Finish {
        status,
        end: Some(end),
        host: None,
    }
}

/// Nothing was run: what is due is written, and the host is given back.
pub fn finish_without<K: Sink, H>(sink: &mut K, not_run: NotRun<H>) -> Finish<H>
    ensures none { (result.end ≡ None) × (result.host ≡ Some not_run.host) }
    ensures written { IsWrittenAs not_run.status (due_bytes not_run.due) result.status
        (record { old = K.told sink.old; new = K.told sink.new }) }
{
    let NotRun { status, due, host } = not_run;
    Finish {
        status: write_due(sink, status, &due),
        end: None,
        host: Some(host),
    }
}
