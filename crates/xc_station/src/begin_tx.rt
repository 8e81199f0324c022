ghost use Rattle.std.specs.Prelude.{◌≡◌, ℕ, Bool, true, false, ◌≤◌, ◌<◌, ◌+◌, length, is_some, IfSome, IsSome, MatchOption, None, Some};
ghost use Rattle.std.specs.Prelude.{IsNone, OnOk, OnErr, slice_get};
ghost use Rattle.xc_sentinel.specs.Seating.{KeepsSeats, SetsSeat, seat_in};
ghost use Rattle.xc_model.specs.Moment.{Moment, Idle, begun_count, failures, rank_of, with_job};
ghost use Rattle.xc_model.specs.IdleRows.{IdleTurn, MayBegin, IsSpent, NamesLast};
ghost use Rattle.xc_model.specs.Live.{IsScripted, has_clients};
ghost use Rattle.xc_model.specs.Movers.{mover};
ghost use Rattle.xc_model.specs.declared.rules.Rules.{Rules as PlainRules};
ghost use Rattle.xc_model.specs.Setting.{Setting, setting};
ghost use Rattle.xc_station.specs.Beginning.{GoesWithout, IsWaitOver, IsHalted, IsNamedLast, IsSeatBehind, IsStopped, WaitsOnly};
ghost use Rattle.xc_station.specs.Beginning.{is_end_in, is_over_in};
ghost use Rattle.xc_station.specs.Jobs.{job_view};
ghost use Rattle.xc_station.specs.Moments.{AreSeats, HasBegun, marks_of};

use crate::job::{Activity, Job};
use std::alloc::Global;
use xc_data::{Cause, JobEnd, NoMemory, Object, Turn};
use xc_journal::Journal;
use xc_model::{Attempts, Rules};
use xc_script::{Ask, JobState};
use xc_sentinel::Sentinels;
use xc_text::Script;

/// The most entries that wait to be handed out; each active transaction has its place among them.
pub const MOST_WAITING: usize = 10_000;

/// The most entries that a journal of clients has: each transaction has a number.
const MOST_NUMBERS: usize = 4_294_967_295;

// What keeps an idle job from its next transaction, memory aside.
#[derive(Drop)]
enum Halt {
    // The job ends.
    End(JobEnd),
    // It waits for the transaction that ended its last attempt, which is active.
    Wait { object: Object, holder: u32 },
}

// Why the last attempt ended, where there were as many as the rules allow.
fn given_up(rules: &Rules, attempts: &Option<Attempts>) -> Option<Cause>
    requires { 1 ≤ rules.now.attempts }
    ensures { MatchOption result (failures attempts.now < rules.now.attempts)
        (λ c. (s : Setting) → s.rules ≡ rules.now → IsSpent s attempts.now c) }
{
    match attempts {
        Some(Attempts { failed, last, .. }) if *failed >= rules.attempts => Some(last.again()),
        _ => None,
    }
}

// The transaction that ended the last attempt, and the object that both wanted.
fn named_last(attempts: &Option<Attempts>) -> Option<(Object, u32)>
    ensures { IsNamedLast attempts.now result }
{
    match attempts {
        Some(attempts) => match &attempts.last {
            Cause::Conflict { object, holder, .. } => Some((object.again(), *holder)),
            Cause::Revoked { object, by, .. } => Some((object.again(), *by)),
            Cause::Asked | Cause::NoMemory | Cause::Stuck { .. } => None,
        },
        None => None,
    }
}

// For whom an idle job waits, and for which object.
fn waits_for(rules: &Rules, sentinels: &Sentinels, job: &Job) -> Option<(Object, u32)>
    ensures patient { IsSome result → (job.now.busy < rules.now.patience) × (job.now.busy < 4294967295) }
    ensures waits { MatchOption result
        (IsWaitOver job.now.attempts rules.now.patience job.now.busy sentinels.now.seats)
        (λ w. NamesLast job.now.attempts w.0 w.1 × (is_some (seat_in sentinels.now.seats w.1) ≡ true)) }
{
    let (object, holder) = named_last(&job.attempts)?;
    if job.busy < rules.patience && sentinels.active(holder) {
        Some((object, holder))
    } else {
        None
    }
}

// Whether a client has handed in its end.
fn is_end_in(handed: &Option<Ask>) -> bool
    ensures { result ≡ is_end_in handed.now }
{
    matches!(handed, Some(Ask::End))
}

// Whether a job is over: no transaction is left, or its client has handed in its end.
fn is_over(script: &Script, job: &Job) -> bool
    ensures { (rules : PlainRules) (tells : Bool)
        → result ≡ is_over_in (has_clients script.now) (setting script.now rules tells) (job_view job.now) }
{
    if script.clients {
        return is_end_in(&job.handed);
    }
    !job.place.has_next(script)
}

// Whether no transaction more begins: of those that have begun too many wait to be handed out, or no number is left. A script's are
// never handed out.
fn is_full(begun: usize, waiting: usize) -> bool
    requires { waiting ≤ begun }
    ensures full { result ≡ true → 10000 ≤ begun }
    ensures room { result ≡ false → (waiting < 10000) × (begun < 4294967295) }
{
    if waiting >= MOST_WAITING {
        return true;
    }
    begun >= MOST_NUMBERS
}

// Whether an idle job ends or waits.
fn why_halted(
    script: &Script,
    rules: &Rules,
    sentinels: &Sentinels,
    begun: usize,
    waiting: usize,
    job: &Job,
) -> Option<Halt>
    requires attempts { 1 ≤ rules.now.attempts }
    requires waiting { (waiting ≤ begun) × (IsScripted script.now → waiting ≡ begun) }
    ensures patient { IfSome result (WaitsOnly job.now.busy 4294967295) }
    ensures numbered { IsNone result → begun < 4294967295 }
    ensures halts { (tells : Bool) (now : Moment) → begun_count now ≡ begun → AreSeats sentinels.now.seats now.jobs → MatchOption result
        (MayBegin (setting script.now rules.now tells) now (job_view job.now))
        (IsHalted (setting script.now rules.now tells) now (job_view job.now)) }
{
    if is_over(script, job) {
        return Some(Halt::End(JobEnd::Done));
    }
    if let Some(last) = given_up(rules, &job.attempts) {
        return Some(Halt::End(JobEnd::GaveUp(last)));
    }
    if let Some((object, holder)) = waits_for(rules, sentinels, job) {
        return Some(Halt::Wait { object, holder });
    }
    if is_full(begun, waiting) {
        return Some(Halt::End(JobEnd::JournalFull));
    }
    None
}

// The turn of a job that doesn't begin.
fn stop(job: &mut Job, halt: &Halt) -> Turn
    requires { WaitsOnly job.old.busy 4294967295 halt.now }
    ensures stopped { IsStopped (job_view job.old) (job_view job.new) halt.now result }
    ensures children { job.new.children.items ≡ job.old.children.items }
{
    match halt {
        Halt::End(end) => job.end(end),
        Halt::Wait { object, holder } => {
            job.wait();
            Turn::Busy {
                object: object.again(),
                holder: *holder,
            }
        }
    }
}

fn rank_of(attempts: &Option<Attempts>, number: u32) -> u32
    ensures { result ≡ rank_of attempts.now number }
{
    match attempts {
        Some(attempts) => attempts.first,
        None => number,
    }
}

// The room of a transaction of this number and rank: for its entry in the journal, which then has so much, a seat, and its job's
// variables for an abort.
fn take_room(
    journal: &mut Journal,
    sentinels: &mut Sentinels,
    place: &mut JobState,
    spare: u32,
    number: u32,
    rank: u32,
) -> Result<(), NoMemory>
    requires new { seat_in sentinels.old.seats number ≡ None }
    ensures items { journal.new.items ≡ journal.old.items }
    ensures gone { journal.new.gone ≡ journal.old.gone }
    ensures room { OnOk result (spare ≤ journal.new.spare) }
    ensures kept { journal.old.spare ≤ journal.new.spare }
    ensures claims { sentinels.new.claims ≡ sentinels.old.claims }
    ensures ok_seats { OnOk result (SetsSeat sentinels.old.seats sentinels.new.seats number
        (Some (record { rank = rank; running = true; mark = None }))) }
    ensures err_seats { OnErr result (KeepsSeats sentinels.old.seats sentinels.new.seats) }
    ensures ok_place { OnOk result (place.new ≡ record place.old { begun = place.old.variables }) }
    ensures err_place { OnErr result (place.new ≡ place.old) }
{
    // Room in the journal that isn't used stays for the next transaction.
    journal.reserve(spare)?;
    sentinels.begin(number, rank)?;
    // Last, since a seat can be withdrawn without fail.
    if place.begin().is_err() {
        sentinels.withdraw(number);
        return Err(NoMemory);
    }
    Ok(())
}

// The turn of a job whose next transaction gets no room: of a script it ends; where clients ask it stays as it is.
fn go_without(clients: bool, job: &mut Job) -> Turn
    ensures without { GoesWithout clients (job_view job.old) (job_view job.new) result }
    ensures children { job.new.children.items ≡ job.old.children.items }
{
    if clients {
        return Turn::NoMemory;
    }
    job.end(&JobEnd::NoMemory)
}

/// The turn of an idle job: its next transaction begins, with a seat, room for its entry and its variables kept for an abort; or
/// the job waits or ends. Where there is no memory for that room, a client's job stays as it is. `active` counts the active
/// transactions, each of which has its room in the journal.
pub fn begin(
    alloc: Global,
    script: &Script,
    rules: &Rules,
    journal: &mut Journal,
    sentinels: &mut Sentinels,
    active: u32,
    job: &mut Job,
) -> Turn
    requires idle { (job_view job.old).doing ≡ Idle }
    requires few { length journal.old.items + active ≤ 4294967295 }
    requires held { IsScripted script.now → journal.old.gone ≡ 0 }
    requires attempts { 1 ≤ rules.now.attempts }
    requires new { seat_in sentinels.old.seats (length journal.old.items + active + 1) ≡ None }
    ensures items { journal.new.items ≡ journal.old.items }
    ensures gone { journal.new.gone ≡ journal.old.gone }
    ensures room { (result ≡ Turn.Went → active + 1 ≤ journal.new.spare) × (journal.old.spare ≤ journal.new.spare) }
    ensures claims { sentinels.new.claims ≡ sentinels.old.claims }
    ensures seats { IsSeatBehind (length journal.old.items + active + 1) (rank_of job.old.attempts (length journal.old.items + active + 1))
        sentinels.old.seats sentinels.new.seats result }
    ensures row { (tells : Bool) (now : Moment) (at : ℕ) → HasBegun now (length journal.old.items) active
        → AreSeats sentinels.old.seats now.jobs
        → now.marks ≡ marks_of sentinels.old.seats
        → slice_get now.jobs at ≡ Some (job_view job.old)
        → IdleTurn (mover (setting script.now rules.now tells) at now (job_view job.old)) result
        (record (with_job now at (job_view job.new)) { marks = marks_of sentinels.new.seats }) }
    ensures children { job.new.children.items ≡ job.old.children.items }
{
    let entered = journal.len();
    let waiting = journal.waiting() + active as usize;
    // First, since a job that ends or waits takes no number and no room.
    if let Some(halt) = why_halted(
        script,
        rules,
        sentinels,
        entered as usize + active as usize,
        waiting,
        job,
    ) {
        return stop(job, &halt);
    }
    // Those that entered and those that are active have the numbers before.
    let number = entered + active + 1;
    let rank = rank_of(&job.attempts, number);
    // Before anything of the job changes: without room it ends, or stays, as it stands.
    if take_room(journal, sentinels, &mut job.place, active + 1, number, rank).is_err() {
        return go_without(script.clients, job);
    }
    job.tx.begin(alloc, number, rank, entered);
    job.activity = Activity::Active;
    job.handed = None;
    job.busy = 0;
    Turn::Went
}
