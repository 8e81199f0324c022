//! What a client hands in, and what it is told.

ghost use Rattle.std.specs.Prelude.{◌≡◌, ◌≤◌, ◌+◌, ◌-◌, ℕ, Some, length, slice_get, position};
ghost use Rattle.std.specs.Option.{option_copied};
ghost use Rattle.xc_model.specs.HandedIn.{IsHandedIn, MayHandIn};
ghost use Rattle.xc_model.specs.Moment.{TxView};
ghost use Rattle.xc_model.specs.Movers.{IsActiveAt};
ghost use Rattle.xc_station.specs.HandedTold.{is_numbered, job_numbered, last_reply_at, last_reply_in, open_block_at, open_block_in};
ghost use Rattle.xc_station.specs.Jobs.{doing_of, job_views};
ghost use Rattle.xc_station.specs.Stations.{KeepsEvents, KeepsOpening, now_of, setting_of};

use crate::Station;
use crate::job::{Activity, Job};
use crate::tx::Tx;
use xc_data::Reply;
use xc_host::Host;
use xc_script::Ask;

// The reply to the last call that is noted.
fn last_noted(tx: &Tx) -> Option<&Reply>
    ensures { option_copied result ≡ slice_get tx.now.replies.items (length tx.now.replies.items - 1) }
{
    let replies = tx.replies.as_slice();
    if replies.is_empty() {
        return None;
    }
    replies.get(replies.len() - 1)
}

// The reply to the last call that a job's active transaction has noted.
fn last_reply_of(job: &Job) -> Option<&Reply>
    ensures { option_copied result ≡ last_reply_in (doing_of job.now) }
{
    match &job.activity {
        Activity::Active => last_noted(&job.tx),
        Activity::Idle | Activity::Starved | Activity::Ended(_) => None,
    }
}

// Whether a job's active transaction has an open block; None where it has none.
fn open_block_of(job: &Job) -> Option<bool>
    ensures { result ≡ open_block_in (doing_of job.now) }
{
    match &job.activity {
        Activity::Active => Some(job.tx.saved.is_some()),
        Activity::Idle | Activity::Starved | Activity::Ended(_) => None,
    }
}

// Whether a job's active transaction has this number.
fn is_numbered(job: &Job, number: u32) -> bool
    ensures { result ≡ is_numbered number (doing_of job.now) }
{
    match &job.activity {
        Activity::Active => job.tx.number == number,
        Activity::Idle | Activity::Starved | Activity::Ended(_) => false,
    }
}

// The place of the first job whose active transaction has this number.
fn numbered(jobs: &[Job], number: u32) -> Option<usize>
    ensures { result ≡ position (λ job. is_numbered number (doing_of job)) jobs.now }
{
    jobs.iter().position(|job| is_numbered(job, number))
}

impl<H: Host> Station<H> {
    /// A client hands in what its transaction asks next, or its own end. Its next turn takes it up.
    pub fn hand_in(&mut self, job: u32, ask: Ask)
        requires first { 1 ≤ job }
        requires may { MayHandIn (setting_of H.model self.old) (job - 1) ask (now_of H.model self.old) }
        ensures same { KeepsOpening self.old self.new }
        ensures quiet { KeepsEvents self.old self.new }
        ensures handed { IsHandedIn (setting_of H.model self.old) (job - 1) ask (now_of H.model self.old) (now_of H.model self.new) }
    {
        self.jobs[job as usize - 1].handed = Some(ask);
    }

    /// The reply to the last call that the active transaction of a job has noted; `None` where it has noted none, where the job has no
    /// active transaction, and where it isn't there.
    pub fn last_reply(&self, job: u32) -> Option<&Reply>
        ensures { option_copied result ≡ last_reply_at (job_views self.now.jobs) job }
    {
        if job == 0 {
            return None;
        }
        match self.jobs.get(job as usize - 1) {
            Some(job) => last_reply_of(job),
            None => None,
        }
    }

    /// The job whose active transaction has this number; `None` where no active one has it. It looks at one job after another.
    pub fn job_of(&self, number: u32) -> Option<u32>
        ensures number { result ≡ job_numbered self.now.jobs number }

        // No other active one has it.
        ensures only { (at : ℕ) (tx : TxView) → IsActiveAt (job_views self.now.jobs) at tx → tx.number ≡ number → result ≡ Some (at + 1) }
    {
        match numbered(self.jobs.as_slice(), number) {
            Some(at) => Some(at as u32 + 1),
            None => None,
        }
    }

    /// Whether the active transaction of a job has an open block; false also where the job has no active one, or isn't there.
    pub fn within(&self, job: u32) -> bool
        ensures { result ≡ open_block_at (job_views self.now.jobs) job }
    {
        if job == 0 {
            return false;
        }
        match self.jobs.get(job as usize - 1) {
            Some(job) => open_block_of(job).unwrap_or(false),
            None => false,
        }
    }
}
