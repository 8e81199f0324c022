ghost use Rattle.std.specs.Prelude.{◌≡◌, ◌≢◌, ℕ, ◌<◌, ◌≤◌, ◌+◌, ◌^◌, List, [], ◌∷◌, ◌++◌, length, None, IsTrue};
ghost use Rattle.xc_data.specs.declared.call.LateCall.{LateCall as PlainCall};
ghost use Rattle.xc_data.specs.declared.entry.Cause.{Cause as PlainCause};
ghost use Rattle.xc_data.specs.declared.entry.Outcome.TheVariants.{Committed, Aborted};
ghost use Rattle.xc_deferred.specs.Does.{EndsNext, IsThereFor};
ghost use Rattle.xc_host.specs.Fronted.{before, fronted};
ghost use Rattle.xc_host.specs.Kept.{KeepsData};
ghost use Rattle.xc_deferred.specs.Queue.{Queue, next_thread};
ghost use Rattle.xc_script.specs.Position.{at_begin};
ghost use Rattle.xc_compensate.specs.Records.{IsTried, NextIsCovered, Records};
ghost use Rattle.xc_model.specs.declared.phase.Phase.TheVariants as PlainPhase;
ghost use Rattle.xc_model.specs.Moment.{TxView, Active, Idle, failures, late_left, queue_of, with_queue};
ghost use Rattle.xc_model.specs.Entering.{behind_abort, behind_commit, entry_of};
ghost use Rattle.xc_model.specs.Movers.{with_tx};
ghost use Rattle.xc_station.specs.Jobs.{job_view};
ghost use Rattle.xc_station.specs.Lent.{GivesTaken, LetsGo, notes_of};
ghost use Rattle.xc_station.specs.Moments.{GivesUpClaims, HoldsItsClaims};

use crate::buffers::Buffers;
use crate::calls::Shared;
use crate::job::{Activity, Child, Job};
use crate::tx::Tx;
use std::alloc::Global;
use std::mem::replace;
use xc_data::{Cause, Entry, LateEnd};
use xc_host::Host;
use xc_model::{Attempts, Phase};
use xc_script::JobState;

// Goes on to the next transaction, of which there was no attempt yet.
fn go_on(place: &mut JobState, attempts: &mut Option<Attempts>)
    requires { place.old.next < 2 ^ 32 }
    ensures place { place.new ≡ at_begin (record { block = place.old.block; next = place.old.next + 1; variables = place.old.variables }) }
    ensures attempts { attempts.new ≡ None }
{
    place.pass();
    *attempts = None;
}

/// A committing job after a turn in which its next late call was done.
pub fn end_late<H: Host>(host: &mut H, buffers: &Buffers, job: &mut Job)
    requires committing { (tx : TxView) × ((job_view job.old).doing ≡ Active tx) × (0 < length (late_left tx))
        × (next_thread (late_left tx) ≡ None)
        × (IsTrue H.model.tells → (call : PlainCall) (calls : List PlainCall) → late_left tx ≡ call ∷ calls
        → IsThereFor (H.model.contents host.old) call) }
    ensures ends { (tx : TxView) (call : PlainCall) (calls : List PlainCall) → (job_view job.old).doing ≡ Active tx
        → late_left tx ≡ call ∷ calls
        → (queue : Queue) × (job_view job.new ≡ with_tx (job_view job.old) job.old.place (with_queue tx queue))
        × EndsNext (fronted H.model) call (record { host = before host.old buffers.now.kept; late = queue_of tx })
        (record { host = before host.new buffers.now.kept; late = queue }) }
    ensures keeps { IsTrue H.model.tells → KeepsData (H.model.contents host.old) (H.model.contents host.new) }
    ensures children { job.new.children.items ≡ job.old.children.items }
{
    // The oldest that has no end: their script made them in this order.
    job.tx.late.do_one(host, buffers.kept());
}

/// A committing job after a turn in which its next late call, which starts a job, ended so.
pub fn end_start(job: &mut Job, end: LateEnd)
    requires committing { (tx : TxView) × ((job_view job.old).doing ≡ Active tx) × (0 < length (late_left tx)) }
    ensures ends { (tx : TxView) → (job_view job.old).doing ≡ Active tx
        → job_view job.new ≡ with_tx (job_view job.old) job.old.place (record tx { ends = tx.ends ++ end ∷ [] }) }
    ensures children { job.new.children.items ≡ job.old.children.items }
{
    job.tx.late.end_thread(end);
}

/// What a committed transaction leaves: its entry, and the jobs that it has started.
pub struct TxResult {
    pub entry: Entry,
    pub children: Vec<Child>,
}

/// A committed job after its last turn, and what its transaction leaves: its slots have taken the ends of its late calls, and its
/// claims are given up. The job's number counts from 1.
pub fn commit<H: Host>(
    alloc: Global,
    number: u32,
    job: &mut Job,
    shared: &mut Shared<H>,
) -> TxResult
    requires committing { (tx : TxView) × ((job_view job.old).doing ≡ Active tx) × (tx.phase ≡ PlainPhase.Committing) }
    requires next { job.old.place.next < 2 ^ 32 }
    requires table { HoldsItsClaims shared.old.sentinels.claims (job_view job.old) }
    requires noted { notes_of (job_view job.old) ≤ shared.old.buffers.noted }
    ensures same { (shared.new.host ≡ shared.old.host) × (shared.new.words ≡ shared.old.words) }
    ensures started { shared.new.started ≡ shared.old.started }
    ensures gone { LetsGo shared.old.buffers shared.new.buffers (job_view job.old) }
    ensures entry { (tx : TxView) (at : ℕ) → (job_view job.old).doing ≡ Active tx → number ≡ at + 1
        → (job_view job.new ≡ behind_commit (job_view job.old) tx) × (result.entry ≡ entry_of tx at (Committed tx.ends)) }
    ensures freed { GivesUpClaims shared.old.sentinels shared.new.sentinels (job_view job.old) }
    ensures children { (result.children.items ≡ job.old.children.items) × (job.new.children.items ≡ []) }
{
    job.activity = Activity::Idle;
    job.handed = None;
    job.busy = 0;
    // What it took is gone for good. Its notes go while it still holds its claims, so nobody else has any of these pipes and pairs.
    shared.buffers.let_go(alloc, &mut job.tx.taken);
    let Tx {
        calls,
        replies,
        late,
        ..
    } = &job.tx;
    // Before the entry, which takes the calls, the replies and the ends with it.
    job.place
        .set_ends(calls.as_slice(), replies.as_slice(), late.ends());
    // After the slots: the next transaction begins with the variables as they are now.
    go_on(&mut job.place, &mut job.attempts);
    // Before the next one begins its handles are the job's.
    job.tx.renew();
    TxResult {
        // The claims go last: whoever gets an object then finds nothing of this transaction half done.
        entry: job.tx.close(alloc, number, &mut shared.sentinels),
        children: replace(&mut job.children, Vec::new(alloc)),
    }
}

/// An undoing job after a turn in which its newest record without an end was tried.
pub fn undo<H: Host>(host: &mut H, tries: u32, job: &mut Job)
    requires undoing { (tx : TxView) × ((job_view job.old).doing ≡ Active tx) × (tx.undo.pending ≢ [])
        × (IsTrue H.model.tells → NextIsCovered (H.model.contents host.old) tx.undo) }
    requires tries { 1 ≤ tries }
    ensures undone { (tx : TxView) → (job_view job.old).doing ≡ Active tx → (undo : Records)
        × (job_view job.new ≡ with_tx (job_view job.old) job.old.place (record tx { undo = undo }))
        × IsTried H.model tries (record { host = host.old; undo = tx.undo }) (record { host = host.new; undo = undo }) }
    ensures children { job.new.children.items ≡ job.old.children.items }
{
    job.tx.undo.undo_next(host, tries);
}

// Why a transaction undoes.
fn cause_of(tx: &Tx) -> Cause
    requires { (c : PlainCause) × (tx.now.phase ≡ PlainPhase.Undoing c) }
    ensures { tx.now.phase ≡ PlainPhase.Undoing result }
{
    match &tx.phase {
        Phase::Undoing(cause) => cause.again(),
        // The contract leaves no other phase.
        _ => unreachable!(),
    }
}

// The attempts with one more that ended in a conflict, of a transaction of this rank.
fn one_more(attempts: &Option<Attempts>, rank: u32, last: Cause) -> Attempts
    requires { failures attempts.now + 1 < 2 ^ 32 }
    ensures { result ≡ record { first = rank; failed = failures attempts.now + 1; last = last } }
{
    let failed = match attempts {
        Some(attempts) => attempts.failed,
        None => 0,
    };
    Attempts {
        first: rank,
        failed: failed + 1,
        last,
    }
}

// Goes to the place that a job has after an abort of a transaction of this rank.
fn go_back(job: &mut Job, rank: u32, cause: Cause)
    requires idle { ((job_view job.old).doing ≡ Idle) × (job.old.busy ≡ 0) × (job.old.handed ≡ None) }
    requires next { job.old.place.next < 2 ^ 32 }
    requires attempts { failures job.old.attempts + 1 < 2 ^ 32 }
    ensures back { (tx : TxView) → tx.rank ≡ rank → job_view job.new ≡ behind_abort (job_view job.old) tx cause }
    ensures children { job.new.children.items ≡ job.old.children.items }
{
    job.place.back();
    match cause {
        Cause::NoMemory => job.activity = Activity::Starved,
        // A block that got stuck is not tried again: another try would find what remains.
        Cause::Asked | Cause::Stuck { .. } => go_on(&mut job.place, &mut job.attempts),
        Cause::Conflict { .. } | Cause::Revoked { .. } => {
            job.attempts = Some(one_more(&job.attempts, rank, cause));
        }
    }
}

/// An undoing job after its last turn, and its entry: what it took is in front again, and its claims are given up. The job's
/// number counts from 1.
pub fn abort<H: Host>(alloc: Global, number: u32, job: &mut Job, shared: &mut Shared<H>) -> Entry
    requires undone { (tx : TxView) × (c : PlainCause) × ((job_view job.old).doing ≡ Active tx) × (tx.phase ≡ PlainPhase.Undoing c)
        × (tx.undo.pending ≡ []) }
    requires next { job.old.place.next < 2 ^ 32 }
    requires attempts { failures job.old.attempts + 1 < 2 ^ 32 }
    requires table { HoldsItsClaims shared.old.sentinels.claims (job_view job.old) }
    requires noted { notes_of (job_view job.old) ≤ shared.old.buffers.noted }
    ensures same { (shared.new.host ≡ shared.old.host) × (shared.new.words ≡ shared.old.words) }
    ensures started { shared.new.started ≡ shared.old.started }
    ensures given { GivesTaken shared.old.buffers shared.new.buffers (job_view job.old) }
    ensures entry { (tx : TxView) (c : PlainCause) (at : ℕ) → (job_view job.old).doing ≡ Active tx → tx.phase ≡ PlainPhase.Undoing c
        → number ≡ at + 1 → (job_view job.new ≡ behind_abort (job_view job.old) tx c)
        × (result ≡ entry_of tx at (Aborted (record { cause = c; records = tx.undo.ended }))) }
    ensures freed { GivesUpClaims shared.old.sentinels shared.new.sentinels (job_view job.old) }
    ensures children { job.new.children.items ≡ job.old.children.items }
{
    // Before the entry, which leaves the transaction without both.
    let cause = cause_of(&job.tx);
    let rank = job.tx.rank;
    // What it took comes back while it still holds its claims, so it lies in front of all that others take.
    shared.buffers.give_back(&mut job.tx.taken);
    // With the entry the claims go: all records have their ends, and what it took is back.
    let entry = job.tx.close(alloc, number, &mut shared.sentinels);
    job.activity = Activity::Idle;
    job.handed = None;
    job.busy = 0;
    // Last, since without memory the job isn't idle.
    go_back(job, rank, cause);
    entry
}
