ghost use Rattle.std.specs.Prelude.{◌≡◌, ◌<◌, ◌-◌, ◌+◌, slice_get, None, true};
ghost use Rattle.std.specs.Prelude.{Some};
ghost use Rattle.xc_model.specs.Live.{IsScripted};
ghost use Rattle.xc_model.specs.Measure.{turns_left};
ghost use Rattle.xc_model.specs.Rows.{IsTurn};
ghost use Rattle.xc_model.specs.Moment.{TxView, Active, late_left};
ghost use Rattle.xc_station.specs.declared.job.Stage.TheVariants as PlainStage;
ghost use Rattle.xc_station.specs.declared.job.Job.{Job as PlainJob};
ghost use Rattle.xc_station.specs.Jobs.{IsStage, doing_of};
ghost use Rattle.xc_data.specs.declared.entry.Turn.TheVariants as PlainTurn;
ghost use Rattle.xc_deferred.specs.Queue.{next_thread};
ghost use Rattle.xc_station.specs.Stations.{ChangesOne, KeepsEvents, KeepsOpening};
ghost use Rattle.xc_station.specs.Stations.{live_at, now_of, setting_of};

use crate::Station;
use crate::backing::go_back;
use crate::begin_tx::begin;
use crate::calls::Shared;
use crate::child_jobs::{Start, join, start_job};
use crate::end_tx::{TxResult, abort, commit, end_late, end_start, undo};
use crate::job::Stage;
use crate::places::block_at;
use crate::running::run;
use xc_data::{Ident, Turn};
use xc_host::Host;

impl<H: Host> Station<H> {
    // An idle job's next transaction begins, or the job ends.
    #[inline(never)]
    fn idle(&mut self, at: usize) -> Turn
        requires { IsStage self.old.jobs at PlainStage.Idle }
        ensures same { KeepsOpening self.old self.new }
        ensures quiet { KeepsEvents self.old self.new }
        ensures row { IsTurn (setting_of H.model self.old) at (now_of H.model self.old) result (now_of H.model self.new) }
    {
        let turn = begin(
            self.alloc,
            &self.opening.script,
            &self.rules,
            &mut self.journal,
            &mut self.shared.sentinels,
            self.active,
            &mut self.jobs[at],
        );
        if matches!(turn, Turn::Went) {
            self.active += 1;
        }
        turn
    }

    // A running transaction does its next call, or enters its commit or its rollback.
    #[inline(always)]
    fn running(&mut self, at: usize) -> Turn
        requires { IsStage self.old.jobs at PlainStage.Running }
        ensures same { KeepsOpening self.old self.new }
        ensures quiet { KeepsEvents self.old self.new }
        ensures row { IsTurn (setting_of H.model self.old) at (now_of H.model self.old) result (now_of H.model self.new) }
    {
        let entered = self.entries();
        run(
            self.alloc,
            &mut self.shared,
            &self.opening.script,
            &self.rules,
            entered,
            &mut self.jobs[at],
        )
    }

    // A block of a transaction goes back: its next record is tried, or the back is noted.
    #[inline(never)]
    fn backing(&mut self, at: usize) -> Turn
        requires { IsStage self.old.jobs at PlainStage.Backing }
        ensures same { KeepsOpening self.old self.new }
        ensures quiet { KeepsEvents self.old self.new }
        ensures row { IsTurn (setting_of H.model self.old) at (now_of H.model self.old) result (now_of H.model self.new) }
    {
        go_back(
            &mut self.shared,
            &self.opening.script,
            &self.rules,
            &mut self.jobs[at],
        )
    }

    // The next late call of a committing transaction starts a job of this block.
    fn late_start(&mut self, at: usize, block: Ident)
        requires stage { IsStage self.old.jobs at PlainStage.Committing }
        requires starts { (job : PlainJob) → slice_get self.old.jobs at ≡ Some job → (tx : TxView) → doing_of job ≡ Active tx
            → next_thread (late_left tx) ≡ Some block }
        ensures same { KeepsOpening self.old self.new }
        ensures quiet { KeepsEvents self.old self.new }
        ensures row { IsTurn (setting_of H.model self.old) at (now_of H.model self.old) PlainTurn.Went (now_of H.model self.new) }
    {
        let start = Start {
            block,
            place: block_at(&self.opening.script, &self.places, block),
        };
        let end = start_job(
            self.alloc,
            &self.opening.script,
            start,
            &mut self.jobs,
            at,
            &mut self.lines,
            &mut self.ahead,
            &mut self.shared.started,
        );
        end_start(&mut self.jobs[at], end);
    }

    // The next late call of a committing transaction is done at the host, under its claims.
    fn late_call(&mut self, at: usize)
        requires stage { IsStage self.old.jobs at PlainStage.Committing }
        requires hosted { (job : PlainJob) → slice_get self.old.jobs at ≡ Some job → (tx : TxView) → doing_of job ≡ Active tx
            → next_thread (late_left tx) ≡ None }
        ensures same { KeepsOpening self.old self.new }
        ensures quiet { KeepsEvents self.old self.new }
        ensures row { IsTurn (setting_of H.model self.old) at (now_of H.model self.old) PlainTurn.Went (now_of H.model self.new) }
    {
        let Shared { host, buffers, .. } = &mut self.shared;
        end_late(host, buffers, &mut self.jobs[at]);
    }

    // Does the next late call of a committing transaction.
    #[inline(never)]
    fn committing(&mut self, at: usize) -> Turn
        requires { IsStage self.old.jobs at PlainStage.Committing }
        ensures same { KeepsOpening self.old self.new }
        ensures quiet { KeepsEvents self.old self.new }
        ensures row { IsTurn (setting_of H.model self.old) at (now_of H.model self.old) result (now_of H.model self.new) }
    {
        // One call a turn, the oldest first: what it names is still held, so nobody else sees it half done.
        match self.jobs[at].tx.late.next_thread() {
            Some(block) => self.late_start(at, block),
            None => self.late_call(at),
        }
        Turn::Went
    }

    // The entry of a committed transaction. Its claims end, and the jobs that it started are live.
    #[inline(never)]
    fn committed(&mut self, at: usize) -> Turn
        requires { IsStage self.old.jobs at PlainStage.Committed }
        ensures same { KeepsOpening self.old self.new }
        ensures quiet { KeepsEvents self.old self.new }
        ensures row { IsTurn (setting_of H.model self.old) at (now_of H.model self.old) result (now_of H.model self.new) }
    {
        let TxResult { entry, children } = commit(
            self.alloc,
            at as u32 + 1,
            &mut self.jobs[at],
            &mut self.shared,
        );
        // Into the room that was made when it began. From here on it doesn't count among those that need room.
        self.journal.enter(entry);
        self.active -= 1;
        // Last: a started job is live from the entry on, and begins with what the commit left.
        join(self.alloc, &mut self.jobs, &mut self.ahead, children);
        Turn::Went
    }

    // Tries the newest record of an undoing transaction that has no end yet.
    #[inline(never)]
    fn undoing(&mut self, at: usize) -> Turn
        requires { IsStage self.old.jobs at PlainStage.Undoing }
        ensures same { KeepsOpening self.old self.new }
        ensures quiet { KeepsEvents self.old self.new }
        ensures row { IsTurn (setting_of H.model self.old) at (now_of H.model self.old) result (now_of H.model self.new) }
    {
        undo(
            &mut self.shared.host,
            self.rules.undo_tries,
            &mut self.jobs[at],
        );
        Turn::Went
    }

    // The entry of a transaction whose records have their ends. Its stores were never written; what it took is in front again, and
    // its claims end.
    #[inline(never)]
    fn undone(&mut self, at: usize) -> Turn
        requires { IsStage self.old.jobs at PlainStage.Undone }
        ensures same { KeepsOpening self.old self.new }
        ensures quiet { KeepsEvents self.old self.new }
        ensures row { IsTurn (setting_of H.model self.old) at (now_of H.model self.old) result (now_of H.model self.new) }
    {
        // The range of what the rules allow bounds the count of attempts, so one more can be counted.
        let allowed = self.rules.attempts;
        prove!(allowed >= 1);
        let entry = abort(
            self.alloc,
            at as u32 + 1,
            &mut self.jobs[at],
            &mut self.shared,
        );
        // Into the room that was made when it began.
        self.journal.enter(entry);
        self.active -= 1;
        Turn::Went
    }

    // A job whose transaction was aborted for lack of memory ends, or is idle again where clients ask.
    #[inline(never)]
    fn starved(&mut self, at: usize) -> Turn
        requires { IsStage self.old.jobs at PlainStage.Starved }
        ensures same { KeepsOpening self.old self.new }
        ensures quiet { KeepsEvents self.old self.new }
        ensures row { IsTurn (setting_of H.model self.old) at (now_of H.model self.old) result (now_of H.model self.new) }
    {
        let clients = self.opening.script.clients;
        self.jobs[at].feed(clients)
    }

    // What a turn does, by the job's stage.
    pub(super) fn advance(&mut self, job: u32) -> Turn
        requires { live_at self.old.jobs job ≡ true }
        ensures same { KeepsOpening self.old self.new }
        ensures changes { ChangesOne (job - 1) (now_of H.model self.old) (now_of H.model self.new) }
        ensures quiet { KeepsEvents self.old self.new }
        ensures row { IsTurn (setting_of H.model self.old) (job - 1) (now_of H.model self.old) result (now_of H.model self.new) }
        ensures falls { IsScripted self.old.opening.script → turns_left (setting_of H.model self.new) (now_of H.model self.new)
            < turns_left (setting_of H.model self.old) (now_of H.model self.old) }
    {
        let at = job as usize - 1;
        match self.jobs[at].stage() {
            Stage::Idle => self.idle(at),
            Stage::Running => self.running(at),
            Stage::Backing => self.backing(at),
            Stage::Committing => self.committing(at),
            Stage::Committed => self.committed(at),
            Stage::Undoing => self.undoing(at),
            Stage::Undone => self.undone(at),
            Stage::Starved => self.starved(at),
            Stage::Ended => unreachable!(),
        }
    }
}
