ghost use Rattle.std.specs.Prelude.{◌≡◌, ◌≢◌, ◌≤◌, ◌<◌, ◌+◌, ◌-◌, ◌^◌, ◌++◌, ℕ, length, map, replicate, slice_get, slice_set, IfOk, OnOk};
ghost use Rattle.std.specs.declared.option.Option.TheVariants.{Some};
ghost use Rattle.xc_data.specs.declared.entry.Outcome.TheVariants.{Committed};
ghost use Rattle.xc_judge.specs.Judged.{IsInSomeTurn, IsOpenTo};
ghost use Rattle.xc_judge.specs.Ran.{IsLedOn};
ghost use Rattle.xc_model.specs.Course.{Standing as PlainStanding, after_course, standing_anew};
ghost use Rattle.xc_model.specs.EntryEnds.{IsCommit};
ghost use Rattle.xc_model.specs.Machine.{IsPlayedBody};
ghost use Rattle.xc_model.specs.Progress.{body_of, private_of};

use crate::handles::hand_on;
use crate::progress::push_jobs;
use crate::ran::Ran;
use crate::{Progress, Standing};
use std::alloc::Global;
use xc_asked::started;
use xc_data::{Entry, Ident, LateEnd, NoMemory, Place, Private};

// The job at a place stands before its next transaction.
#[tactic(auto, using(std::proofs::lemmas::Option::get_or_from_slice_get))]
fn restart(alloc: Global, jobs: &mut Vec<Standing>, at: usize, since: u32)
    requires { at < length jobs.old.items }
    ensures { (f : PlainStanding) → slice_get jobs.old.items at ≡ Some f
        → jobs.new.items ≡ slice_set jobs.old.items at (standing_anew f.block since) }
{
    let block = jobs[at].block;
    jobs[at] = Standing::anew(alloc, block, since);
}

// After a commit the job at a place stands before its next transaction with these handles, and so does a job of each block that it
// started.
fn hand_over(
    handles: &mut Vec<[Place; 256]>,
    jobs: &mut Vec<Standing>,
    at: usize,
    me: &Private,
    blocks: &[Ident],
    since: u32,
) -> Result<(), NoMemory>
    requires handles { at < length handles.old.items }
    requires jobs { at < length jobs.old.items }
    ensures handles { OnOk result (handles.new.items
        ≡ slice_set handles.old.items at me.now.places ++ replicate (length blocks.now) me.now.places) }
    ensures jobs { (f : PlainStanding) → slice_get jobs.old.items at ≡ Some f → OnOk result (jobs.new.items
        ≡ slice_set jobs.old.items at (standing_anew f.block since) ++ map (λ block. standing_anew block since) blocks.now) }
{
    let alloc = *jobs.allocator();
    hand_on(handles, at, &me.places, blocks.len())?;
    restart(alloc, jobs, at, since);
    push_jobs(alloc, jobs, blocks, since)
}

impl Progress {
    /// The private state of an entry's transaction at its begin.
    pub(crate) fn begin(&self, entry: &Entry) -> Private
        requires { 1 ≤ entry.now.job }
        ensures { result ≡ private_of self.now.state entry.now.job }
    {
        match self.handles.get(entry.job as usize - 1) {
            Some(places) => Private {
                places: *places,
                made: 0,
                stored: 0,
            },
            None => Private::new(),
        }
    }

    /// The place of an entry's job among the started ones.
    #[tactic(auto, using(std::proofs::lemmas::Option::slice_get_within))]
    pub(crate) fn place_of(&self, entry: &Entry) -> usize
        requires { IsInSomeTurn self.now entry.now }
        ensures value { result ≡ entry.now.job - 1 }
        ensures handles { result < length self.now.state.handles }
        ensures jobs { result < length self.now.jobs }
    {
        let at = entry.job as usize - 1;
        let is_started = at < self.jobs.len();
        prove!(is_started);
        at
    }

    /// After a committed entry that is true, by what its body and its late calls left.
    pub(crate) fn commit(
        self,
        entry: &Entry,
        late: &[LateEnd],
        ran: Ran,
    ) -> Result<Progress, NoMemory>
        requires open { IsOpenTo self entry.now.tx }
        requires room { self.entered + 1 < 2 ^ 32 }
        requires numbered { IsInSomeTurn self entry.now }
        requires outcome { entry.now.outcome ≡ Committed late.now }
        requires played { IsPlayedBody self.state entry.now }
        requires ended { IsCommit self.state entry.now late.now }
        requires led { IsLedOn ran.world ran.me.value (body_of self.state entry.now) late.now }
        ensures value { IfOk result (λ next. next ≡ after_course self entry.now) }
        ensures open { (ty : ℕ) → (ty ≢ entry.now.tx) → IsOpenTo self ty → IfOk result (λ next. IsOpenTo next ty) }
    {
        let at = self.place_of(entry);
        let alloc = *self.jobs.allocator();
        let blocks = started(
            alloc,
            entry.calls.as_slice(),
            entry.replies.as_slice(),
            late,
        )?;
        let Progress {
            world: before,
            mut handles,
            mut jobs,
            entered,
        } = self;
        drop(before);
        let Ran { world, me, traced } = ran;
        drop(traced);
        let since = entered + 1;
        hand_over(&mut handles, &mut jobs, at, &me, blocks.as_slice(), since)?;
        Ok(Progress {
            world,
            handles,
            jobs,
            entered: since,
        })
    }
}
