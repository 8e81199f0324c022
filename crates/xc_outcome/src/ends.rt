ghost use Rattle.std.specs.Prelude.{◌≡◌, ◌≤◌, length, if◌then◌else◌};
ghost use Rattle.std.specs.List.{list_any};
ghost use Rattle.xc_model.specs.Ending.{is_memory_end, is_starved, has_memory_end, some_late_starved};
ghost use Rattle.xc_outcome.specs.Runs.{starves};
ghost use Rattle.xc_outcome.specs.Said.{gave_up, gives_up, leaves_effects};

use crate::Status;
use xc_data::{Entry, JobEnd, JobLine, LateEnd, Outcome};
use xc_print::remaining_effects;
use xc_station::End;

fn is_starved(job: &JobLine) -> bool
    ensures { result ≡ is_starved job.now }
{
    matches!(job.end, JobEnd::NoMemory)
}

fn is_given_up(job: &JobLine) -> bool
    ensures { result ≡ gives_up job.now }
{
    matches!(job.end, JobEnd::GaveUp(_) | JobEnd::JournalFull)
}

fn some_job_starved(jobs: &[JobLine]) -> bool
    ensures { result ≡ list_any is_starved jobs.now }
{
    jobs.iter().any(|job| is_starved(job))
}

fn some_memory_end(ends: &[LateEnd]) -> bool
    ensures { result ≡ list_any is_memory_end ends.now }
{
    ends.iter().any(|end| matches!(end, LateEnd::NoMemory(_)))
}

fn has_memory_end(entry: &Entry) -> bool
    ensures { result ≡ has_memory_end entry.now.outcome }
{
    match &entry.outcome {
        Outcome::Committed { late } => some_memory_end(late.as_slice()),
        Outcome::Aborted(_) => false,
    }
}

fn some_late_starved(entries: &[Entry]) -> bool
    ensures { result ≡ some_late_starved entries.now }
{
    entries.iter().any(|entry| has_memory_end(entry))
}

fn starves<H>(end: &End<H>) -> bool
    requires { end.now.journal.gone ≡ 0 }
    ensures { result ≡ starves end.now }
{
    some_job_starved(end.jobs.as_slice()) || some_late_starved(end.journal.as_slice())
}

fn gave_up<H>(end: &End<H>) -> bool
    ensures { result ≡ gave_up end.now }
{
    end.jobs.as_slice().iter().any(|job| is_given_up(job))
}

fn leaves_effects<H>(end: &End<H>) -> bool
    requires few { length end.now.journal.items ≤ 10000 }
    requires unparted { end.now.journal.gone ≡ 0 }
    ensures { result ≡ leaves_effects end.now }
{
    remaining_effects(end.journal.as_slice()) > 0
}

/// The status that a run with this end is meant to have. Memory comes first: a run in which it ran out has that status,
/// whatever else became of its jobs.
pub fn status_of<H>(end: &End<H>) -> Status
    requires few { length end.now.journal.items ≤ 10000 }
    requires unparted { end.now.journal.gone ≡ 0 }
    ensures { result ≡ (if starves end.now then Status.NoMemory
        else if leaves_effects end.now then Status.Left
        else if gave_up end.now then Status.GaveUp
        else Status.Done) }
{
    if starves(end) {
        return Status::NoMemory;
    }
    if leaves_effects(end) {
        return Status::Left;
    }
    if gave_up(end) {
        return Status::GaveUp;
    }
    Status::Done
}
