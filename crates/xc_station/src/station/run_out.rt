ghost use Rattle.std.specs.Prelude.{◌≡◌, ◌+◌, ℕ, length, replicate, Some};
ghost use Rattle.xc_data.specs.declared.entry.Cause.{Cause as PlainCause};
ghost use Rattle.xc_model.specs.declared.phase.Phase.TheVariants as PlainPhase;
ghost use Rattle.xc_station.specs.Finishing.{AddsEntry, OthersStay, job_left_at, phase_at, phase_in};
ghost use Rattle.xc_station.specs.Jobs.{doing_of, job_views};
ghost use Rattle.xc_station.specs.Stations.{TakeTurns};

use crate::Station;
use crate::job::{Activity, Job};
use xc_host::Host;
use xc_model::Phase;

fn phase_of(job: &Job) -> Option<Phase>
    ensures { result ≡ phase_in (doing_of job.now) }
{
    match job.activity {
        Activity::Active => Some(job.tx.phase.again()),
        Activity::Idle | Activity::Starved | Activity::Ended(_) => None,
    }
}

// Takes turns of a job until its transaction, which commits or undoes, is in the journal. Gives the place of its entry.
fn finish<H: Host>(station: &mut Station<H>, job: u32) -> u32
    requires { (phase : _) × (left : ℕ)
        × (job_left_at (job_views station.old.jobs) job ≡ Some left) × (phase_at (job_views station.old.jobs) job ≡ Some phase) }
    ensures place { result ≡ length station.old.journal }
    ensures entered { (phase : _) → phase_at (job_views station.old.jobs) job ≡ Some phase
        → AddsEntry job phase station.old.journal station.new.journal }
    ensures turns { (left : ℕ) → job_left_at (job_views station.old.jobs) job ≡ Some left
        → TakeTurns H.model (replicate (left + 1) job) station.old station.new }
    ensures others { OthersStay job (job_views station.old.jobs) (job_views station.new.jobs) }
{
    let place = station.entries();
    while station.entries() == place {
        station.turn(job);
    }
    place
}

impl<H: Host> Station<H> {
    // The length of the journal.
    pub(super) fn entries(&self) -> u32
        ensures { result ≡ length self.now.journal }
    {
        self.journal.len()
    }

    /// What the active transaction of a job does; `None` exactly if the job has none, or isn't there. It takes no memory.
    pub fn phase(&self, job: u32) -> Option<Phase>
        ensures { result ≡ phase_at (job_views self.now.jobs) job }
    {
        if job == 0 {
            return None;
        }
        match self.jobs.get(job as usize - 1) {
            Some(job) => phase_of(job),
            None => None,
        }
    }

    /// Takes the turns of a job whose transaction is in its rollback, until the Aborted entry is in the journal: one for each record
    /// without an end, and one for the entry. Gives the entry's place, which counts from 0. It takes no memory.
    pub fn finish_undo(&mut self, job: u32) -> u32
        requires { (c : PlainCause) × (phase_at (job_views self.old.jobs) job ≡ Some (PlainPhase.Undoing c)) }
        ensures place { result ≡ length self.old.journal }
        ensures entered { (c : PlainCause) → phase_at (job_views self.old.jobs) job ≡ Some (PlainPhase.Undoing c)
            → AddsEntry job (PlainPhase.Undoing c) self.old.journal self.new.journal }

        // So many turns were taken, all of this job, and no others.
        ensures turns { (left : ℕ) → job_left_at (job_views self.old.jobs) job ≡ Some left
            → TakeTurns H.model (replicate (left + 1) job) self.old self.new }
        ensures others { OthersStay job (job_views self.old.jobs) (job_views self.new.jobs) }
    {
        finish(self, job)
    }

    /// Takes the turns of a job whose transaction commits, until the Committed entry is in the journal: one for each late call without
    /// an end, and one for the entry. Gives the entry's place, which counts from 0. Only a late call can run out of memory: it ends so.
    pub fn finish_commit(&mut self, job: u32) -> u32
        requires { phase_at (job_views self.old.jobs) job ≡ Some PlainPhase.Committing }
        ensures place { result ≡ length self.old.journal }
        ensures entered { AddsEntry job PlainPhase.Committing self.old.journal self.new.journal }

        // So many turns were taken, all of this job, and no others.
        ensures turns { (left : ℕ) → job_left_at (job_views self.old.jobs) job ≡ Some left
            → TakeTurns H.model (replicate (left + 1) job) self.old self.new }
        ensures others { OthersStay job (job_views self.old.jobs) (job_views self.new.jobs) }
    {
        finish(self, job)
    }
}
