ghost use Rattle.std.specs.Prelude.{◌≡◌, ◌≢◌, ◌<◌, ◌+◌, ◌^◌, ℕ, length, slice_get, slice_set, IfOk, OnOk};
ghost use Rattle.std.specs.declared.option.Option.TheVariants.{Some};
ghost use Rattle.xc_data.specs.declared.entry.Outcome.TheVariants.{Aborted};
ghost use Rattle.xc_judge.specs.Judged.{IsInSomeTurn, IsOpenTo};
ghost use Rattle.xc_judge.specs.Traced.{undos_of};
ghost use Rattle.xc_model.specs.Course.{Standing as PlainStanding, after_course, standing_abort};
ghost use Rattle.xc_model.specs.EntryEnds.{AreRecords};
ghost use Rattle.xc_model.specs.Machine.{IsPlayedBody};
ghost use Rattle.xc_model.specs.Progress.{body_of};
ghost use Rattle.xc_script.specs.declared.ask.Ask.{Ask};

use crate::{Progress, Standing};
use std::alloc::Global;
use xc_data::{Cause, Entry, NoMemory, Report};
use xc_machine::put_remains;

impl Standing {
    // After an entry that was aborted for this cause.
    fn abort(
        &mut self,
        alloc: Global,
        entered: u32,
        entry: &Entry,
        cause: &Cause,
    ) -> Result<(), NoMemory>
        requires { entered + 1 < 2 ^ 32 }
        ensures { OnOk result (self.new ≡ standing_abort entered self.old entry.now cause.now) }
    {
        let since = entered + 1;
        match cause {
            // The end of its transaction.
            Cause::Asked | Cause::Stuck { .. } => {
                *self = Standing::anew(alloc, self.block, since);
            }
            // The end of the job.
            Cause::NoMemory => {
                self.starved = true;
                self.since = since;
            }
            // It is tried again.
            Cause::Conflict { .. } | Cause::Revoked { .. } => {
                self.failed.push(cause.again())?;
                self.first = Some(self.first.unwrap_or(entry.tx));
                self.since = since;
            }
        }
        Ok(())
    }
}

// The job at a place, after such an entry.
#[tactic(auto, using(std::proofs::lemmas::Option::get_or_from_slice_get))]
fn abort_job(
    alloc: Global,
    jobs: &mut Vec<Standing>,
    at: usize,
    entered: u32,
    entry: &Entry,
    cause: &Cause,
) -> Result<(), NoMemory>
    requires place { at < length jobs.old.items }
    requires room { entered + 1 < 2 ^ 32 }
    ensures { (f : PlainStanding) → slice_get jobs.old.items at ≡ Some f
        → OnOk result (jobs.new.items ≡ slice_set jobs.old.items at (standing_abort entered f entry.now cause.now)) }
{
    jobs[at].abort(alloc, entered, entry, cause)
}

impl Progress {
    /// After an aborted entry that is true.
    pub(crate) fn abort(self, entry: &Entry, report: &Report) -> Result<Progress, NoMemory>
        requires room { self.entered + 1 < 2 ^ 32 }
        requires numbered { IsInSomeTurn self entry.now }
        requires outcome { entry.now.outcome ≡ Aborted report.now }
        requires open { IsOpenTo self entry.now.tx }
        requires played { IsPlayedBody self.state entry.now }
        requires records { (last : Ask) × AreRecords (body_of self.state entry.now) entry.now.tx last report.now.cause
            (undos_of report.now.records) }
        ensures value { IfOk result (λ next. next ≡ after_course self entry.now) }
        ensures open { (ty : ℕ) → (ty ≢ entry.now.tx) → IsOpenTo self ty → IfOk result (λ next. IsOpenTo next ty) }
    {
        let at = self.place_of(entry);
        let Progress {
            mut world,
            handles,
            mut jobs,
            entered,
        } = self;
        put_remains(&mut world, report.records.as_slice())?;
        let alloc = *jobs.allocator();
        abort_job(alloc, &mut jobs, at, entered, entry, &report.cause)?;
        Ok(Progress {
            world,
            handles,
            jobs,
            entered: entered + 1,
        })
    }
}
