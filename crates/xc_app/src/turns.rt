//! The turns of all jobs, by a list, by rounds, job after job, or by workers.

ghost use Rattle.std.specs.Prelude.{◌≡◌, None, [], IfSome, IsSome};
ghost use Rattle.xc_model.specs.Alone.{AreAlone};
ghost use Rattle.xc_model.specs.Live.{IsScripted};
ghost use Rattle.xc_station.specs.Stations.{KeepsOrigin, NobodyLives, RanAlone, now_of};
ghost use Rattle.xc_app.specs.Headline.{needs_threads as needs_threads_with, RunsAlone};
ghost use Rattle.xc_app.specs.Parts.{TakeListed};

use std::sync::Wait;
use std::thread::Threads;
use xc_host::Host;
use xc_runner::{Pace, run_workers};
use xc_settings::Chosen;
use xc_station::{Station, drain, run_schedule, work_alone};

/// Whether several workers take the turns: there is neither a list nor a seed, and more than one.
pub fn needs_threads(chosen: &Chosen) -> bool
    ensures { result ≡ needs_threads_with chosen.now }
{
    chosen.schedule.is_none() && chosen.seed.is_none() && chosen.workers != 1
}

// Takes the turns of the listed jobs first, and then rounds.
fn take_listed<H: Host>(station: Station<H>, jobs: &[u32]) -> Station<H>
    requires scripted { IsScripted station.opening.script }
    ensures origin { KeepsOrigin station result }
    ensures listed { TakeListed H.model jobs.now station result }
    ensures ended { NobodyLives result.jobs }
{
    let mut station = station;
    run_schedule(&mut station, jobs);
    drain(&mut station);
    station
}

// Takes job after job.
fn take_alone<H: Host>(station: Station<H>) -> Station<H>
    requires scripted { IsScripted station.opening.script }
    requires taken { station.taken ≡ 0 }
    ensures origin { KeepsOrigin station result }
    ensures ended { NobodyLives result.jobs }
    ensures alone { AreAlone (now_of H.model station) 0 → RanAlone H.model result }
{
    let mut station = station;
    work_alone(&mut station);
    station
}

/// Takes the turns of all jobs in this thread: the listed ones first, and then rounds; with a seed and no list rounds alone; otherwise
/// job after job.
pub fn take_turns<H: Host>(station: Station<H>, chosen: &Chosen) -> Station<H>
    requires scripted { IsScripted station.opening.script }
    requires taken { station.taken ≡ 0 }
    ensures origin { KeepsOrigin station result }
    ensures listed { IfSome chosen.now.schedule (λ jobs. TakeListed H.model jobs station result) }
    ensures seeded { IsSome chosen.now.seed → chosen.now.schedule ≡ None → TakeListed H.model [] station result }
    ensures ended { NobodyLives result.jobs }
    ensures alone { RunsAlone chosen.now → AreAlone (now_of H.model station) 0 → RanAlone H.model result }
{
    match &chosen.schedule {
        Some(jobs) => take_listed(station, jobs.as_slice()),
        None => {
            if chosen.seed.is_some() {
                return take_listed(station, &[]);
            }
            take_alone(station)
        }
    }
}

/// `workers` workers take the turns, each in a thread of its own; what they leave is taken in rounds.
pub fn take_together<H: Host + Send, P: Pace + Sync, R: AllocGlobal + Threads + Wait + Sync>(
    rt: &R,
    station: Station<H>,
    workers: u32,
    pace: &P,
) -> Station<H>
    requires scripted { IsScripted station.opening.script }
    requires journal { station.journal ≡ [] }
    ensures origin { KeepsOrigin station result }
    ensures ended { NobodyLives result.jobs }
{
    let mut station = run_workers(rt, station, workers, pace);
    drain(&mut station);
    station
}
