ghost use Rattle.std.specs.Prelude.{◌≡◌, ◌≢◌, ◌+◌, ◌<◌, ◌≤◌, ◌^◌, [], ℕ, length, is_some, true, false, IsSome, IsTrue, Some};
ghost use Rattle.xc_data.specs.declared.entry.Cause.TheVariants as PlainCause;
ghost use Rattle.xc_script.specs.declared.ask.Ask.TheVariants.{Call as AskedCall};
ghost use Rattle.xc_script.specs.Asking.{asks};
ghost use Rattle.xc_script.specs.Blocks.{ask_fits, fits_block};
ghost use Rattle.xc_script.specs.Ask.{next_body};
ghost use Rattle.xc_script.specs.Position.{walk_of, job_of, IsPastSilent};
ghost use Rattle.xc_world.specs.Fits.{is_back};
ghost use Rattle.xc_world.specs.Modes.{claims_of};
ghost use Rattle.xc_model.specs.declared.phase.Phase.TheVariants as PlainPhase;
ghost use Rattle.xc_model.specs.declared.rules.Rules.{Rules as PlainRules};
ghost use Rattle.xc_model.specs.Moment.{TxView, JobView, Moment, Active, revoked};
ghost use Rattle.xc_data.specs.declared.object.Object.{Object};
ghost use Rattle.xc_model.specs.Setting.{setting};
ghost use Rattle.xc_model.specs.Live.{IsScripted, asked_by, has_clients};
ghost use Rattle.xc_model.specs.Movers.{mover};
ghost use Rattle.xc_station.specs.Acting.{AreReadyFor, MayGo};
ghost use Rattle.xc_station.specs.Backs.{BacksSafely, CanGoBack, HasSave};
ghost use Rattle.xc_station.specs.Handed.{handed_back, handed_tx};
ghost use Rattle.xc_station.specs.Jobs.{begun_of, job_view, tx_view};
ghost use Rattle.xc_txmem.specs.Overlay.{AreWithin, overlaid};
ghost use Rattle.xc_station.specs.Moments.{AreTerms, CanRun, HasClaimed, HasNeeds, HasTx, IsAt, IsRow, IsRunningRow, KeepsSeated, Lends};
ghost use Rattle.xc_station.specs.Moments.{busy_counted, front_of, marks_of, moved, runs, seated_as};
ghost use Rattle.xc_sentinel.specs.Seating.{seat_in};
ghost use Rattle.xc_locks.specs.Table.{Holds};

use crate::backing::begin_back;
use crate::calls::{Shared, do_call};
use crate::client_turns::step_client;
use crate::job::Job;
use crate::tx::Tx;
use arrayvec::ArrayVec;
use std::alloc::Global;
use xc_data::{Call, Cause, Claim, Mark, NoMemory, Object, Turn};
use xc_host::Host;
use xc_model::{Phase, Rules};
use xc_script::{Ask, JobState};
use xc_sentinel::{ClaimVerdict, Sentinels};
use xc_text::Script;
use xc_txmem::Words;
use xc_world::push_claims;

/// The most calls that a transaction has.
const MOST_CALLS: usize = 256;

// Puts into an empty list what a transaction's call claims.
fn touch(claims: &mut ArrayVec<Claim, 2>, words: &Words, tx: &Tx, call: &Call)
    requires count { length words.now ≤ 4096 }
    requires empty { claims.old.items ≡ [] }
    ensures { claims.new.items ≡ claims_of call.now tx.now.me.value (length words.now) }
{
    push_claims(claims, call, &tx.me, words.count() as u32);
}

/// The transaction undoes for lack of memory.
pub fn abort_for_memory(tx: &mut Tx) -> Turn
    ensures tx { tx_view tx.new ≡ record (tx_view tx.old) { phase = PlainPhase.Undoing PlainCause.NoMemory } }
    ensures begun { begun_of tx.new ≡ begun_of tx.old }
    ensures save { HasSave tx.old tx.old.saved → HasSave tx.new tx.new.saved }
    ensures answer { result ≡ Turn.NoMemory }
{
    tx.phase = Phase::Undoing(Cause::NoMemory);
    Turn::NoMemory
}

// The transaction undoes since another holds an object, and it doesn't wait.
#[cold]
#[inline(never)]
fn lose(tx: &mut Tx, object: &Object, holder: u32, at: u32)
    ensures tx { tx_view tx.new ≡ record (tx_view tx.old) { phase = PlainPhase.Undoing (PlainCause.Conflict object.now holder at) } }
    ensures begun { begun_of tx.new ≡ begun_of tx.old }
    ensures save { HasSave tx.old tx.old.saved → HasSave tx.new tx.new.saved }
{
    tx.phase = Phase::Undoing(Cause::Conflict {
        object: object.again(),
        holder,
        at,
    });
}

/// On which terms a call claims what it touches.
#[derive(Clone, Copy)]
pub struct Terms {
    /// Whether its transaction may wait for a younger holder.
    pub patient: bool,
    /// How long the journal is.
    pub at: u32,
    /// For how many calls there is to be room: for as many as its transaction may have, before the first one.
    pub most: u32,
    /// How often a compensation is tried.
    pub tries: u32,
}

// Claims what a call touches, with room to note the call. Where another holds something against it the transaction waits, if that
// one is younger, or undoes; it undoes for lack of memory too.
fn claim<H: Host>(
    shared: &mut Shared<H>,
    terms: Terms,
    tx: &mut Tx,
    call: &Call,
) -> Result<(), Turn>
    requires count { length shared.old.words ≤ 4096 }
    requires holds { Holds shared.old.sentinels.claims tx.old.number tx.old.held.items }
    ensures same { (front_of shared.new ≡ front_of shared.old) × (shared.new.words ≡ shared.old.words) }
    ensures started { shared.new.started ≡ shared.old.started }
    ensures claimed { HasClaimed (record { old = shared.old.sentinels; new = shared.new.sentinels })
        (record { old = tx.old; new = tx.new })
        (record { claims = claims_of call.now tx.old.me.value (length shared.old.words); patient = terms.patient; at = terms.at }) result }
    ensures begun { begun_of tx.new ≡ begun_of tx.old }
    ensures save { HasSave tx.old tx.old.saved → HasSave tx.new tx.new.saved }
{
    let mut touched = ArrayVec::new();
    touch(&mut touched, &shared.words, tx, call);
    let claims = touched.as_slice();
    if tx.room(claims, terms.most).is_err() {
        return Err(abort_for_memory(tx));
    }
    match shared
        .sentinels
        .ask(claims, tx.number, &mut tx.held, terms.patient, terms.at)
    {
        ClaimVerdict::Granted => Ok(()),
        ClaimVerdict::Busy { object, holder } => Err(Turn::Busy { object, holder }),
        ClaimVerdict::Conflict { object, holder } => {
            lose(tx, &object, holder, terms.at);
            Err(Turn::Went)
        }
        ClaimVerdict::NoMemory => Err(abort_for_memory(tx)),
    }
}

/// A call that isn't done: what its client has handed in stays. A script is asked it again.
pub fn hand_back(script: &Script, handed: &mut Option<Ask>, call: Call)
    ensures { handed.new ≡ handed_back script.now handed.old call }
{
    if script.clients {
        *handed = Some(Ask::Call(call));
    }
}

/// The turn of a running transaction whose call is asked. What its client has handed in is taken out of `handed` before, and stands
/// there again where the call isn't done.
pub fn try_call<H: Host>(
    alloc: Global,
    shared: &mut Shared<H>,
    script: &Script,
    terms: Terms,
    place: &mut JobState,
    handed: &mut Option<Ask>,
    tx: &mut Tx,
    call: Call,
) -> Turn
    requires asked { IsScripted script.now → asks (walk_of script.now place.old) ≡ AskedCall call }
    requires ahead { is_back call ≡ false }
    requires fits { fits_block (is_some tx.old.saved) call ≡ true }
    requires together { is_some place.old.saved ≡ is_some tx.old.saved }
    requires save { HasSave tx.old tx.old.saved }
    requires settled { IsPastSilent script.now place.old }
    requires may { MayGo (length shared.old.words) (tx_view tx.old) }
    requires count { length shared.old.words ≤ 4096 }
    requires ready { IsTrue H.model.tells → AreReadyFor (tx_view tx.old) (H.model.contents shared.old.host) }
    requires needs { IsTrue H.model.tells → HasNeeds H.model shared.old (tx_view tx.old) }
    requires noted { length tx.old.taken.items ≤ shared.old.buffers.noted }
    requires holds { Holds shared.old.sentinels.claims tx.old.number tx.old.held.items }
    ensures words { shared.new.words ≡ shared.old.words }
    ensures started { shared.new.started ≡ shared.old.started }
    ensures plan { H.model.plan shared.new.host ≡ H.model.plan shared.old.host }
    ensures seats { KeepsSeated shared.old.sentinels.seats shared.new.sentinels.seats }
    ensures waits { (object : Object) (holder : ℕ) → result ≡ Turn.Busy object holder → terms.patient ≡ true }
    ensures lends { Lends H.model (record { old = front_of shared.old; new = front_of shared.new })
        (record { old = tx_view tx.old; new = tx_view tx.new }) }
    ensures begun { begun_of tx.new ≡ begun_of tx.old }
    ensures backs { runs tx.new.phase ≡ true → CanGoBack terms.tries tx.new }
    ensures row { (rules : PlainRules) (now : Moment) (at : ℕ) (job : JobView) → let s = setting script.now rules H.model.tells in
        IsAt H.model shared.old now at job → HasTx s job place.old (tx_view tx.old) → job.handed ≡ handed_back script.now handed.old call
        → AreTerms rules now job terms.patient terms.at
        → IsRow (mover s at now job)
        (moved H.model shared.new (busy_counted result (handed_tx job handed.new place.new (tx_view tx.new))) now at) result
        shared.new.sentinels.claims }
{
    if let Err(turn) = claim(shared, terms, tx, &call) {
        hand_back(script, handed, call);
        return turn;
    }
    let Shared {
        host,
        buffers,
        words,
        ..
    } = shared;
    match do_call(alloc, host, buffers, words, script, place, tx, &call) {
        Ok(reply) => {
            tx.note(call, reply);
            *handed = None;
            Turn::Went
        }
        Err(NoMemory) => {
            hand_back(script, handed, call);
            abort_for_memory(tx)
        }
    }
}

/// A call that goes back to an inner block's start.
pub fn is_back(call: &Call) -> bool
    ensures { result ≡ is_back call.now }
{
    matches!(call, Call::Back)
}

/// A running transaction enters its commit, which writes its stores.
#[inline(always)]
pub fn enter_commit(words: &mut Words, tx: &mut Tx)
    requires within { AreWithin (length words.old) tx.old.writes.stores }
    ensures words { words.new ≡ overlaid words.old tx.old.writes.stores }
    ensures count { length words.new ≡ length words.old }
    ensures tx { tx_view tx.new ≡ record (tx_view tx.old) { phase = PlainPhase.Committing } }
    ensures begun { begun_of tx.new ≡ begun_of tx.old }
{
    tx.writes.apply(words);
    tx.phase = Phase::Committing;
}

/// A running transaction that is asked its own abort enters its rollback.
#[inline(always)]
pub fn enter_abort(tx: &mut Tx)
    ensures tx { tx_view tx.new ≡ record (tx_view tx.old) { phase = PlainPhase.Undoing PlainCause.Asked } }
    ensures begun { begun_of tx.new ≡ begun_of tx.old }
{
    tx.phase = Phase::Undoing(Cause::Asked);
}

// What a running transaction of a script does next: the call that is asked, with a back its block begins to go back, or it enters its
// commit, which writes its stores, or its rollback.
#[inline(always)]
fn step_scripted<H: Host>(
    alloc: Global,
    shared: &mut Shared<H>,
    script: &Script,
    terms: Terms,
    place: &mut JobState,
    handed: &mut Option<Ask>,
    tx: &mut Tx,
) -> Turn
    requires own { IsScripted script.now }
    requires left { IsSome (next_body script.now (job_of place.old)) }
    requires fits { ask_fits (is_some tx.old.saved) (asks (walk_of script.now place.old)) ≡ true }
    requires together { is_some place.old.saved ≡ is_some tx.old.saved }
    requires save { HasSave tx.old tx.old.saved }
    requires may { MayGo (length shared.old.words) (tx_view tx.old) }
    requires count { length shared.old.words ≤ 4096 }
    requires ready { IsTrue H.model.tells → AreReadyFor (tx_view tx.old) (H.model.contents shared.old.host) }
    requires needs { IsTrue H.model.tells → HasNeeds H.model shared.old (tx_view tx.old) }
    requires noted { length tx.old.taken.items ≤ shared.old.buffers.noted }
    requires holds { Holds shared.old.sentinels.claims tx.old.number tx.old.held.items }
    ensures count { length shared.new.words ≡ length shared.old.words }
    ensures started { shared.new.started ≡ shared.old.started }
    ensures plan { H.model.plan shared.new.host ≡ H.model.plan shared.old.host }
    ensures seats { KeepsSeated shared.old.sentinels.seats shared.new.sentinels.seats }
    ensures waits { (object : Object) (holder : ℕ) → result ≡ Turn.Busy object holder → terms.patient ≡ true }
    ensures lends { Lends H.model (record { old = front_of shared.old; new = front_of shared.new })
        (record { old = tx_view tx.old; new = tx_view tx.new }) }
    ensures begun { begun_of tx.new ≡ begun_of tx.old }
    ensures backs { runs tx.new.phase ≡ true → CanGoBack terms.tries tx.new }
    ensures row { (rules : PlainRules) (now : Moment) (at : ℕ) (job : JobView) → let s = setting script.now rules H.model.tells in
        IsAt H.model shared.old now at job → job.doing ≡ Active (tx_view tx.old) → job.place ≡ place.old → job.handed ≡ handed.old
        → AreTerms rules now job terms.patient terms.at
        → IsRow (mover s at now job)
        (moved H.model shared.new (busy_counted result (handed_tx job handed.new place.new (tx_view tx.new))) now at) result
        shared.new.sentinels.claims }
{
    match place.ask(script) {
        Ok(Ask::Call(call)) => {
            if is_back(&call) {
                return begin_back(terms.tries, tx);
            }
            try_call(alloc, shared, script, terms, place, handed, tx, call)
        }
        Ok(Ask::Commit) => {
            enter_commit(&mut shared.words, tx);
            Turn::Went
        }
        Ok(Ask::Abort) => {
            enter_abort(tx);
            Turn::Went
        }
        Ok(Ask::End) => unreachable!(),
        Err(NoMemory) => abort_for_memory(tx),
    }
}

// What a running transaction does next, by its script or by what its client has handed in.
#[inline(always)]
fn step_running<H: Host>(
    alloc: Global,
    shared: &mut Shared<H>,
    script: &Script,
    terms: Terms,
    place: &mut JobState,
    handed: &mut Option<Ask>,
    tx: &mut Tx,
) -> Turn
    requires left { IsSome (next_body script.now (job_of place.old)) }
    requires fits { ask_fits (is_some tx.old.saved) (asked_by (has_clients script.now) script.now handed.old place.old) ≡ true }
    requires together { is_some place.old.saved ≡ is_some tx.old.saved }
    requires save { HasSave tx.old tx.old.saved }
    requires may { MayGo (length shared.old.words) (tx_view tx.old) }
    requires count { length shared.old.words ≤ 4096 }
    requires ready { IsTrue H.model.tells → AreReadyFor (tx_view tx.old) (H.model.contents shared.old.host) }
    requires needs { IsTrue H.model.tells → HasNeeds H.model shared.old (tx_view tx.old) }
    requires noted { length tx.old.taken.items ≤ shared.old.buffers.noted }
    requires holds { Holds shared.old.sentinels.claims tx.old.number tx.old.held.items }
    ensures count { length shared.new.words ≡ length shared.old.words }
    ensures started { shared.new.started ≡ shared.old.started }
    ensures plan { H.model.plan shared.new.host ≡ H.model.plan shared.old.host }
    ensures seats { KeepsSeated shared.old.sentinels.seats shared.new.sentinels.seats }
    ensures waits { (object : Object) (holder : ℕ) → result ≡ Turn.Busy object holder → terms.patient ≡ true }
    ensures lends { Lends H.model (record { old = front_of shared.old; new = front_of shared.new })
        (record { old = tx_view tx.old; new = tx_view tx.new }) }
    ensures begun { begun_of tx.new ≡ begun_of tx.old }
    ensures backs { runs tx.new.phase ≡ true → CanGoBack terms.tries tx.new }
    ensures row { (rules : PlainRules) (now : Moment) (at : ℕ) (job : JobView) → let s = setting script.now rules H.model.tells in
        IsAt H.model shared.old now at job → job.doing ≡ Active (tx_view tx.old) → job.place ≡ place.old → job.handed ≡ handed.old
        → AreTerms rules now job terms.patient terms.at
        → IsRow (mover s at now job)
        (moved H.model shared.new (busy_counted result (handed_tx job handed.new place.new (tx_view tx.new))) now at) result
        shared.new.sentinels.claims }
{
    if script.clients {
        return step_client(alloc, shared, script, terms, place, handed, tx);
    }
    step_scripted(alloc, shared, script, terms, place, handed, tx)
}

/// A transaction that no longer runs is known as one that doesn't.
#[inline(always)]
pub fn settle(sentinels: &mut Sentinels, tx: &Tx)
    ensures claims { sentinels.new.claims ≡ sentinels.old.claims }
    ensures marks { marks_of sentinels.new.seats ≡ marks_of sentinels.old.seats }
    ensures others { (n : ℕ) → n ≢ tx.now.number → seated_as (seat_in sentinels.new.seats n) ≡ seated_as (seat_in sentinels.old.seats n) }
    ensures own { (rank : ℕ) → seated_as (seat_in sentinels.old.seats tx.now.number) ≡ Some (rank, true)
        → seated_as (seat_in sentinels.new.seats tx.now.number) ≡ Some (rank, runs tx.now.phase) }
{
    match &tx.phase {
        Phase::Running | Phase::Backing => {}
        Phase::Committing | Phase::Undoing(_) => sentinels.settle(tx.number),
    }
}

/// The turn of a job whose transaction is marked: it undoes.
#[cold]
#[inline(never)]
pub fn revoke(tx: &mut Tx, mark: &Mark) -> Turn
    ensures tx { tx_view tx.new ≡ record (tx_view tx.old) { phase = PlainPhase.Undoing (revoked mark.now) } }
    ensures begun { begun_of tx.new ≡ begun_of tx.old }
    ensures answer { result ≡ Turn.Went }
{
    tx.phase = Phase::Undoing(Cause::Revoked {
        object: mark.object.again(),
        by: mark.by,
        at: mark.at,
    });
    Turn::Went
}

// A job that was told to wait counts it.
fn count_wait(job: &mut Job, answer: &Turn)
    requires { (object : Object) (holder : ℕ) → answer.now ≡ Turn.Busy object holder → job.old.busy + 1 < 2 ^ 32 }
    ensures counted { job_view job.new ≡ busy_counted answer.now (job_view job.old) }
    ensures block { job.new.block ≡ job.old.block }
    ensures kept { (job.new.tx ≡ job.old.tx) × (job.new.activity ≡ job.old.activity) }
    ensures children { job.new.children.items ≡ job.old.children.items }
{
    match answer {
        Turn::Busy { .. } => job.wait(),
        Turn::Went | Turn::NoMemory | Turn::Ended(_) => {}
    }
}

// How many calls its transaction may have, if it has done none.
fn calls_ahead(job: &Job, script: &Script) -> u32 {
    if !job.tx.calls.is_empty() {
        return 0;
    }
    job.place.statements(script).min(MOST_CALLS) as u32
}

/// The turn of a job whose transaction runs: its next call, the entering of its commit, which writes its stores, or that
/// of its rollback, as where it is marked. Where memory runs out it keeps what it claimed, and the record of what its call had done at
/// the host. The journal has `entered` entries.
#[inline(always)]
pub fn run<H: Host>(
    alloc: Global,
    shared: &mut Shared<H>,
    script: &Script,
    rules: &Rules,
    entered: u32,
    job: &mut Job,
) -> Turn
    requires running { CanRun script.now H.model shared.old (job_view job.old) }
    requires count { length shared.old.words ≤ 4096 }
    requires save { HasSave job.old.tx job.old.tx.saved }
    ensures count { length shared.new.words ≡ length shared.old.words }
    ensures started { shared.new.started ≡ shared.old.started }
    ensures plan { H.model.plan shared.new.host ≡ H.model.plan shared.old.host }
    ensures block { job.new.block ≡ job.old.block }
    ensures backs { BacksSafely rules.now.undo_tries job.new }
    ensures children { job.new.children.items ≡ job.old.children.items }
    ensures lends { (tx : TxView) → (job_view job.old).doing ≡ Active tx → (behind : TxView) × ((job_view job.new).doing ≡ Active behind)
        × Lends H.model (record { old = front_of shared.old; new = front_of shared.new }) (record { old = tx; new = behind }) }
    ensures row { (now : Moment) (at : ℕ) → let s = setting script.now rules.now H.model.tells in
        IsAt H.model shared.old now at (job_view job.old) → length now.journal ≡ entered
        → IsRunningRow (mover s at now (job_view job.old)) (moved H.model shared.new (job_view job.new) now at) result
        shared.new.sentinels }
{
    if let Some(mark) = shared.sentinels.doomed(job.tx.number) {
        let answer = revoke(&mut job.tx, mark);
        settle(&mut shared.sentinels, &job.tx);
        return answer;
    }
    let terms = Terms {
        patient: job.busy < rules.patience,
        at: entered,
        most: calls_ahead(job, script),
        tries: rules.undo_tries,
    };
    let Job {
        place,
        handed,
        tx,
        ..
    } = job;
    let answer = step_running(alloc, shared, script, terms, place, handed, tx);
    settle(&mut shared.sentinels, &job.tx);
    count_wait(job, &answer);
    answer
}
