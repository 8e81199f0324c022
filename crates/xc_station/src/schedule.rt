ghost use Rattle.std.specs.Prelude.{◌≡◌, ◌<◌, ◌≤◌, ◌+◌, ◌-◌, ◌%◌, ◌^◌, ℕ, true, false, length, slice_index, Option, Some};
ghost use Rattle.xc_data.specs.declared.entry.Event.TheVariants.{Turned};
ghost use Rattle.xc_model.specs.Alone.{AreAlone};
ghost use Rattle.xc_model.specs.Live.{IsScripted};
ghost use Rattle.xc_station.specs.Stations.{GoesOn, IsStepOf, KeepsOrigin, IsFrontOf, NobodyLives, TakeRound, TakeRounds, TakeTurns};
ghost use Rattle.xc_station.specs.Stations.{RanAlone, WorksOn};
ghost use Rattle.xc_station.specs.Stations.{live_at, now_of, turns_of};

use crate::Station;
use xc_data::Turn;
use xc_host::Host;

// One turn of a job, if it is live; whether it was.
fn step<H: Host>(station: &mut Station<H>, job: u32) -> bool
    ensures goes { GoesOn station.old station.new }
    ensures works { WorksOn H.model job station.old station.new }
    ensures step { IsStepOf H.model job (record { old = station.old; new = station.new }) (live_at station.old.jobs job) }
    ensures falls { IsScripted station.old.opening.script → result ≡ true → turns_of H.model station.new < turns_of H.model station.old }
    ensures still { result ≡ false → (station.new ≡ station.old) × (live_at station.old.jobs job ≡ false) }
{
    if !station.live(job) {
        return false;
    }
    station.turn(job);
    true
}

// Takes a job's turns to its end.
fn work_job<H: Host>(station: &mut Station<H>, job: u32)
    requires scripted { IsScripted station.old.opening.script }
    ensures goes { GoesOn station.old station.new }
    ensures works { WorksOn H.model job station.old station.new }
    ensures ended { live_at station.new.jobs job ≡ false }
{
    while step(station, job) {}
}

/// Takes jobs and their turns, each job to its end, on this thread alone.
pub fn work_alone<H: Host>(station: &mut Station<H>)
    requires scripted { IsScripted station.old.opening.script }
    ensures origin { KeepsOrigin station.old station.new }
    ensures front { IsFrontOf station.old.journal station.new.journal }

    // It takes each job that isn't taken, in ascending order, to its end, and no other.
    ensures taken { station.new.taken ≡ length station.new.jobs }
    ensures done { (number : ℕ) → station.old.taken < number → live_at station.new.jobs number ≡ false }
    ensures others { (number : ℕ) → number ≤ station.old.taken → live_at station.new.jobs number ≡ live_at station.old.jobs number }

    // From a start on, all jobs end, and they run one after another.
    ensures ended { station.old.taken ≡ 0 → NobodyLives station.new.jobs }
    ensures alone { station.old.taken ≡ 0 → AreAlone (now_of H.model station.old) 0 → RanAlone H.model station.new }
{
    while let Some(job) = station.next_job() {
        work_job(station, job);
    }
}

/// One turn of each listed job, by `try_turn`; a job that isn't live is passed over.
pub fn run_schedule<H: Host>(station: &mut Station<H>, jobs: &[u32])
    ensures origin { KeepsOrigin station.old station.new }
    ensures front { IsFrontOf station.old.journal station.new.journal }

    // The listed turns were taken, in their order, and no others.
    ensures turns { TakeTurns H.model jobs.now station.old station.new }

    // Each listed job is one event, also where it was passed over; the last event is one of the last listed job.
    ensures count { station.new.events % 2 ^ 64 ≡ (station.old.events + length jobs.now) % 2 ^ 64 }
    ensures last { 0 < length jobs.now
        → (answer : Option Turn) × (station.new.last ≡ Some (Turned (slice_index jobs.now (length jobs.now - 1)) answer)) }
{
    for job in jobs {
        let _answer = station.try_turn(*job);
    }
}

// One turn of each live job, in the order of their numbers; whether there was one.
fn round<H: Host>(station: &mut Station<H>) -> bool
    requires scripted { IsScripted station.old.opening.script }
    ensures goes { GoesOn station.old station.new }
    ensures falls { result ≡ true → turns_of H.model station.new < turns_of H.model station.old }
    ensures none { result ≡ false → NobodyLives station.new.jobs }
    ensures round { TakeRound H.model station.old station.new }
{
    let mut at = 0;
    while let Some(job) = station.next_live(at) {
        station.turn(job);
        at = job;
    }
    at > 0
}

/// Rounds of turns, in each one of every job that goes on, in ascending order, until none does.
pub fn drain<H: Host>(station: &mut Station<H>)
    requires scripted { IsScripted station.old.opening.script }
    ensures origin { KeepsOrigin station.old station.new }
    ensures front { IsFrontOf station.old.journal station.new.journal }

    // Rounds were taken, as many as it needed, and no other turns.
    ensures rounds { (rounds : ℕ) × TakeRounds H.model rounds station.old station.new }
    ensures ended { NobodyLives station.new.jobs }
{
    while round(station) {}
}
