//! The way back of an inner block.

ghost use Rattle.std.specs.Prelude.{◌≡◌, ◌≢◌, ◌⊎◌, ℕ, ◌<◌, ◌≤◌, ◌+◌, ◌*◌, ◌^◌, [], All, Contains, IsSome, IsTrue, None, Some};
ghost use Rattle.std.specs.Prelude.{true, drop, sum_by, length};
ghost use Rattle.xc_compensate.specs.Records.{IsTried, NextIsCovered};
ghost use Rattle.xc_data.specs.Faults.{undo_faults};
ghost use Rattle.xc_data.specs.declared.entry.Cause.TheVariants as PlainCause;
ghost use Rattle.xc_data.specs.declared.entry.KeptItem.{KeptItem};
ghost use Rattle.xc_model.specs.BackingRows.{backed, phase_after};
ghost use Rattle.xc_model.specs.declared.phase.Phase.TheVariants as PlainPhase;
ghost use Rattle.xc_model.specs.Moment.{Active, Moment, TxView};
ghost use Rattle.xc_model.specs.Live.{IsScripted};
ghost use Rattle.xc_model.specs.Movers.{IsSameBegin, mover};
ghost use Rattle.xc_model.specs.Setting.{setting};
ghost use Rattle.xc_script.specs.Blocks.{back_to};
ghost use Rattle.xc_script.specs.Position.{walk_of, IsAskedCall, IsPastSilent};
ghost use Rattle.xc_world.specs.Ends.{is_undone};
ghost use Rattle.xc_world.specs.Run.{given_back};
ghost use Rattle.xc_world.specs.World.{World};
ghost use Rattle.xc_station.specs.Acting.{HasNoteRoom};
ghost use Rattle.xc_station.specs.Backs.{BacksSafely, CanGoBack, CanStepBack, HasSave, IsBackRow, IsSaveOf};
ghost use Rattle.xc_station.specs.Jobs.{begun_of, job_view, saved_view, tx_view};
ghost use Rattle.xc_station.specs.Moments.{IsAt, front_of, moved};
ghost use Rattle.xc_station.specs.Returning.{IsOpenRow, Returns};
ghost use Rattle.xc_station.specs.declared.tx.Saved.{Saved as PlainSaved};

use crate::buffers::Buffers;
use crate::calls::Shared;
use crate::job::Job;
use crate::running::{abort_for_memory, revoke, settle};
use crate::tx::{Saved, Tx};
use std::mem::replace;
use xc_compensate::UndoTurn;
use xc_data::{Call, Cause, Private, Reply, Turn};
use xc_host::Host;
use xc_model::{Phase, Rules};
use xc_script::JobState;
use xc_text::Script;

// Whether the faults of `records` records can be counted, each of which is tried at most `tries` times.
fn can_count(records: u32, tries: u32) -> bool
    ensures { result ≡ true → records * tries < 2 ^ 32 }
{
    u64::from(records) * u64::from(tries) <= u64::from(u32::MAX)
}

/// A running transaction that is asked a back: its block goes back from the next turn on. Room for the back's note is made now, since
/// no turn of the way back takes memory.
pub fn begin_back(tries: u32, tx: &mut Tx) -> Turn
    requires save { HasSave tx.old tx.old.saved }
    ensures went { result ≡ Turn.Went → tx_view tx.new ≡ record (tx_view tx.old) { phase = PlainPhase.Backing } }
    ensures memory { result ≢ Turn.Went → (result ≡ Turn.NoMemory)
        × (tx_view tx.new ≡ record (tx_view tx.old) { phase = PlainPhase.Undoing PlainCause.NoMemory }) }
    ensures backs { result ≡ Turn.Went → CanGoBack tries tx.new }
    ensures begun { begun_of tx.new ≡ begun_of tx.old }
{
    // never reached: a transaction has at most 256 records
    if !can_count(tx.undo.mark(), tries) || tx.note_room().is_err() {
        return abort_for_memory(tx);
    }
    tx.phase = Phase::Backing;
    Turn::Went
}

// Tries the newest record of the block that has no end yet. Where it can't be undone the whole transaction undoes.
fn undo_one<H: Host>(host: &mut H, tries: u32, mark: u32, tx: &mut Tx)
    requires tries { 1 ≤ tries }
    requires above { mark < length tx.old.undo.pending }
    requires backing { tx.old.phase ≡ PlainPhase.Backing }
    requires covered { IsTrue H.model.tells → NextIsCovered (H.model.contents host.old) tx.old.undo }
    ensures tried { (t : IsTried H.model tries (record { host = host.old; undo = tx.old.undo })
        (record { host = host.new; undo = tx.new.undo }))
        × (tx_view tx.new ≡ record (tx_view tx.old) { phase = phase_after (length t.older + 1) t.end; undo = tx.new.undo }) }
    ensures backs { CanGoBack tries tx.old → tx.new.phase ≡ PlainPhase.Backing → CanGoBack tries tx.new }
    ensures begun { begun_of tx.new ≡ begun_of tx.old }
{
    let failed = tx.undo.left();
    match tx.undo.undo_to(host, tries, mark) {
        UndoTurn::Ended | UndoTurn::Undone { .. } => {}
        UndoTurn::Failed { .. } | UndoTurn::Blocked { .. } => {
            tx.phase = Phase::Undoing(Cause::Stuck { failed });
        }
    }
}

// The handles are these from now on; those of the start are kept as they were, also where none had been kept yet.
fn put_handles(tx: &mut Tx, me: Box<Private>)
    ensures me { tx.new.me.value ≡ me.value }
    ensures begun { begun_of tx.new ≡ begun_of tx.old }
    ensures rest { tx.new ≡ record tx.old { me = tx.new.me; changed = tx.new.changed; begun = tx.new.begun } }
{
    if tx.changed && tx.begun.is_some() {
        tx.me = me;
    } else {
        tx.begun = Some(replace(&mut tx.me, me));
        tx.changed = true;
    }
}

// All is as the save kept it, and the back is noted with the faults of its records. What was made and stored counts on.
fn end_back(buffers: &mut Buffers, script: &Script, place: &mut JobState, tx: &mut Tx)
    requires open { IsSome tx.old.saved }
    requires save { (kept : PlainSaved) → tx.old.saved ≡ Some kept → IsSaveOf tx.old kept × (length tx.old.undo.pending ≡ kept.records) }
    requires undone { All (λ e. is_undone e.1 ≡ true) tx.old.undo.ended }
    requires faults { sum_by undo_faults tx.old.undo.ended < 2 ^ 32 }
    requires no_ends { tx.old.late.ends ≡ [] }
    requires room { HasNoteRoom tx.old }
    requires noted { length tx.old.taken.items ≤ buffers.old.noted }
    requires place { IsSome place.old.saved }
    requires asked { IsScripted script.now → IsAskedCall script.now place.old }
    requires settled { IsPastSilent script.now place.old }
    ensures tx { (kept : PlainSaved) → tx.old.saved ≡ Some kept → tx_view tx.new ≡ backed (tx_view tx.old) (saved_view tx.old kept) }
    ensures save { HasSave tx.new tx.new.saved }
    ensures begun { begun_of tx.new ≡ begun_of tx.old }
    ensures given { (kept : PlainSaved) → tx.old.saved ≡ Some kept → (w : World)
        → given_back w buffers.new.kept ≡ given_back (given_back w buffers.old.kept) (drop kept.taken tx.old.taken.items) }
    ensures among { (kept : PlainSaved) → tx.old.saved ≡ Some kept → (item : KeptItem)
        → Contains buffers.new.kept item → Contains (drop kept.taken tx.old.taken.items) item ⊎ Contains buffers.old.kept item }
    ensures noted { buffers.new.noted + length tx.old.taken.items ≡ buffers.old.noted + length tx.new.taken.items }
    ensures walk { walk_of script.now place.new ≡ back_to (walk_of script.now place.old) place.old.saved }
    ensures begin { IsSameBegin place.old place.new }
    ensures closed { place.new.saved ≡ None }
    ensures nearer { IsScripted script.now → place.old.at < place.new.at }
{
    let Some(saved) = tx.saved.take() else {
        unreachable!()
    };
    let Saved {
        mut me,
        records,
        taken,
        late,
    } = saved;
    let faults = tx.undo.faults();
    tx.undo.forget(records);
    tx.late.cut(late);
    buffers.give_to(&mut tx.taken, taken);
    tx.writes.back();
    me.made = tx.me.made;
    me.stored = tx.me.stored;
    put_handles(tx, me);
    place.unsave(script);
    tx.phase = Phase::Running;
    tx.note(Call::Back, Reply::Undone(faults));
}

// How many records there were at the save of the block that is open.
fn mark_of(tx: &Tx) -> u32
    requires { IsSome tx.now.saved }
    ensures { (kept : PlainSaved) → tx.now.saved ≡ Some kept → result ≡ kept.records }
{
    match &tx.saved {
        Some(saved) => saved.records,
        None => unreachable!(),
    }
}

// The next record of the block is tried, or, where all are undone, the way back ends.
fn step_back<H: Host>(shared: &mut Shared<H>, script: &Script, rules: &Rules, job: &mut Job)
    requires can { CanStepBack script.now H.model shared.old rules.now.undo_tries (job_view job.old) }
    requires tries { 1 ≤ rules.now.undo_tries }
    requires backs { CanGoBack rules.now.undo_tries job.old.tx }
    ensures words { shared.new.words ≡ shared.old.words }
    ensures started { shared.new.started ≡ shared.old.started }
    ensures sentinels { shared.new.sentinels ≡ shared.old.sentinels }
    ensures plan { H.model.plan shared.new.host ≡ H.model.plan shared.old.host }
    ensures block { job.new.block ≡ job.old.block }
    ensures children { job.new.children.items ≡ job.old.children.items }
    ensures backs { BacksSafely rules.now.undo_tries job.new }
    ensures returns { (tx : TxView) → (job_view job.old).doing ≡ Active tx → (behind : TxView) × ((job_view job.new).doing ≡ Active behind)
        × Returns H.model (record { old = front_of shared.old; new = front_of shared.new }) (record { old = tx; new = behind }) }
    ensures row { (now : Moment) (at : ℕ) → let s = setting script.now rules.now H.model.tells in
        IsAt H.model shared.old now at (job_view job.old)
        → IsOpenRow (mover s at now (job_view job.old)) (moved H.model shared.new (job_view job.new) now at) }
{
    let Job {
        place,
        handed,
        tx,
        ..
    } = job;
    let mark = mark_of(tx);
    if mark < tx.undo.left() {
        undo_one(&mut shared.host, rules.undo_tries, mark, tx);
    } else {
        end_back(&mut shared.buffers, script, place, tx);
        *handed = None;
    }
}

/// The turn of a job whose transaction's block goes back: its next record is tried, or the back is noted. Where it is marked it undoes.
/// It takes no memory.
pub fn go_back<H: Host>(
    shared: &mut Shared<H>,
    script: &Script,
    rules: &Rules,
    job: &mut Job,
) -> Turn
    requires can { CanStepBack script.now H.model shared.old rules.now.undo_tries (job_view job.old) }
    requires tries { 1 ≤ rules.now.undo_tries }
    requires backs { CanGoBack rules.now.undo_tries job.old.tx }
    ensures answer { result ≡ Turn.Went }
    ensures words { shared.new.words ≡ shared.old.words }
    ensures started { shared.new.started ≡ shared.old.started }
    ensures plan { H.model.plan shared.new.host ≡ H.model.plan shared.old.host }
    ensures block { job.new.block ≡ job.old.block }
    ensures children { job.new.children.items ≡ job.old.children.items }
    ensures backs { BacksSafely rules.now.undo_tries job.new }
    ensures returns { (tx : TxView) → (job_view job.old).doing ≡ Active tx → (behind : TxView) × ((job_view job.new).doing ≡ Active behind)
        × Returns H.model (record { old = front_of shared.old; new = front_of shared.new }) (record { old = tx; new = behind }) }
    ensures row { (now : Moment) (at : ℕ) → let s = setting script.now rules.now H.model.tells in
        IsAt H.model shared.old now at (job_view job.old)
        → IsBackRow (mover s at now (job_view job.old)) (moved H.model shared.new (job_view job.new) now at) result shared.new.sentinels }
{
    if let Some(mark) = shared.sentinels.doomed(job.tx.number) {
        let answer = revoke(&mut job.tx, mark);
        settle(&mut shared.sentinels, &job.tx);
        return answer;
    }
    step_back(shared, script, rules, job);
    settle(&mut shared.sentinels, &job.tx);
    Turn::Went
}
