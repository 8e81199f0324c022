ghost use Rattle.std.specs.Prelude.{None, ◌≡◌, ◌≢◌, ◌<◌, ◌++◌, ℕ, ◌+◌, ◌≤◌, slice_set, true, false, is_some, length, IfOk, OnOk, OnErr};
ghost use Rattle.std.specs.Prelude.{IsTrue};
ghost use Rattle.xc_data.specs.declared.call.Call.TheVariants as PlainCall;
ghost use Rattle.xc_script.specs.declared.ask.Ask.TheVariants.{Call as AskedCall};
ghost use Rattle.xc_script.specs.Asking.{asks};
ghost use Rattle.xc_script.specs.Answers.{answered, value_in};
ghost use Rattle.xc_script.specs.Position.{walk_of, IsPastSilent};
ghost use Rattle.xc_txmem.specs.Overlay.{overlaid, AreWithin};
ghost use Rattle.xc_data.specs.declared.private.Private.{Private as PlainPrivate};
ghost use Rattle.xc_world.specs.After.{IsMeAfter};
ghost use Rattle.xc_data.specs.Calls.{is_late};
ghost use Rattle.xc_model.specs.WordCalls.{is_word_call, word_reply, words_after};
ghost use Rattle.xc_model.specs.Live.{IsScripted};
ghost use Rattle.xc_model.specs.Movers.{IsSameBegin};
ghost use Rattle.xc_model.specs.PlainSteps.{copied, saved_by, stored_by};
ghost use Rattle.xc_model.specs.RunningRows.{opens_or_closes, IsDoneWhere};
ghost use Rattle.xc_script.specs.Blocks.{fits_block};
ghost use Rattle.xc_world.specs.Fits.{is_back};
ghost use Rattle.xc_station.specs.Backs.{HasSave};
ghost use Rattle.xc_station.specs.Acting.{AreReadyFor, HasActedAsPlain, IsLentFor, MayGo, acting};
ghost use Rattle.xc_station.specs.Jobs.{begun_of, tx_view};
ghost use Rattle.xc_station.specs.Lent.{StaysBacked};
ghost use Rattle.xc_station.specs.PutBack.{changed_at, handle_in, place_before};

use crate::blocks::do_block_call;
use crate::buffers::Buffers;
use crate::tx::Tx;
use std::alloc::Global;
use xc_data::{Call, HandleUse, Ident, NoMemory, Place, Private, Reply};
use xc_file::{
    x_close, x_create, x_len, x_open, x_read, x_rename, x_seek, x_sync, x_unlink, x_write_ovr,
    x_write_seq,
};
use xc_host::Host;
use xc_pipe::{x_pipe, x_shutdown, x_write_pipe};
use xc_roomy::Roomy;
use xc_script::JobState;
use xc_sentinel::Sentinels;
use xc_socket::{x_pair, x_sendmsg};
use xc_text::Script;
use xc_thread::x_thread_create;
use xc_txmem::{Words, WriteSet};

/// What all jobs of a station share.
#[derive(Drop)]
pub struct Shared<H: Host> {
    pub host: H,
    /// What stands in front of what the host's pipes and pairs hold.
    pub buffers: Buffers,
    pub words: Words,
    pub sentinels: Sentinels,
    /// The blocks of all jobs that were started, also of those that aren't live yet.
    pub started: Roomy<Ident>,
}

// The transaction's own stores are seen.
fn load(words: &Words, writes: &WriteSet, at: u64) -> Reply
    requires { AreWithin (length words.now) writes.now.stores }
    ensures reply { result ≡ word_reply (overlaid words.now writes.now.stores) (PlainCall.Load at) }
    ensures now { is_late result ≡ false }
{
    if words.count() as u64 <= at {
        return Reply::BadWord;
    }
    Reply::Number(writes.load(words, at as usize))
}

// A store waits for the commit.
fn store(words: &Words, writes: &mut WriteSet, at: u64, value: u64) -> Result<Reply, NoMemory>
    requires { AreWithin (length words.now) writes.old.stores }
    ensures reply { IfOk result (λ reply. reply ≡ word_reply (overlaid words.now writes.old.stores) (PlainCall.Store at value)) }
    ensures stores { OnOk result (writes.new.stores ≡ writes.old.stores ++ stored_by (length words.now) (PlainCall.Store at value)) }
    ensures saved { writes.new.saved ≡ writes.old.saved }
    ensures words { OnOk result
        (overlaid words.now writes.new.stores ≡ words_after (overlaid words.now writes.old.stores) (PlainCall.Store at value)) }
    ensures err { OnErr result (writes.new.stores ≡ writes.old.stores) }
    ensures now { IfOk result (λ reply. is_late reply ≡ false) }
{
    if words.count() as u64 <= at {
        return Ok(Reply::BadWord);
    }
    writes.store(at as usize, value)?;
    Ok(Reply::Done)
}

// Does a call, which opens and closes no block and is no back. Where memory runs out, a part that the call did at the host is among the
// records.
fn act<H: Host>(
    alloc: Global,
    host: &mut H,
    buffers: &mut Buffers,
    words: &Words,
    tx: &mut Tx,
    call: &Call,
) -> Result<Reply, NoMemory>
    requires may { MayGo (length words.now) (tx_view tx.old) }
    requires ready { IsTrue H.model.tells → AreReadyFor (tx_view tx.old) (H.model.contents host.old) }
    requires lent { IsTrue H.model.tells → IsLentFor tx.old.me.value tx.old.number call.now (H.model.contents host.old) buffers.old.kept }
    requires noted { length tx.old.taken.items ≤ buffers.old.noted }
    requires plain { (opens_or_closes call.now ≡ false) × (is_back call.now ≡ false) }
    ensures begun { (tx.new.changed ≡ tx.old.changed) × (tx.new.begun ≡ tx.old.begun) }
    ensures save { (tx.new.saved ≡ tx.old.saved) × (tx.new.writes.saved ≡ tx.old.writes.saved) }
    ensures notes { (tx.new.calls ≡ tx.old.calls) × (tx.new.replies ≡ tx.old.replies) }
    ensures words { is_word_call call.now ≡ true → (tx.new.me ≡ tx.old.me) × (buffers.new ≡ buffers.old) }
    ensures noted { buffers.new.noted + length tx.old.taken.items ≡ buffers.old.noted + length tx.new.taken.items }
    ensures backs { IsTrue H.model.tells → StaysBacked (H.model.contents host.old) buffers.old.kept buffers.new.kept }
    ensures acted { HasActedAsPlain H.model call.now (acting host.old buffers.old.kept words.now tx.old)
        (acting host.new buffers.new.kept words.now tx.new) result }
{
    let Tx {
        number,
        me,
        writes,
        undo,
        late,
        taken,
        ..
    } = tx;
    match call {
        Call::Load { at } => Ok(load(words, writes, *at)),
        Call::Store { at, value } => store(words, writes, *at, *value),
        Call::XOpen { name } => x_open(host, me, name.value()),
        Call::XCreate { name } => x_create(host, me, undo, *number, name),
        Call::XRead { h, n } => x_read(alloc, host, me, *h, *n),
        Call::XWriteOvr { h, bytes } => x_write_ovr(alloc, host, me, undo, *h, bytes),
        Call::XWriteSeq { h, bytes } => x_write_seq(host, me, undo, *h, bytes),
        Call::XSeek { h, to } => Ok(x_seek(host, me, *h, *to)),
        Call::XLen { h } => Ok(x_len(host, me, *h)),
        Call::XClose { h } => Ok(x_close(me, *h)),
        Call::XRename { from, to } => x_rename(host, undo, from, to),
        Call::XUnlink { name, .. } => x_unlink(late, name),
        Call::XSync { h, .. } => x_sync(late, me, *h),
        Call::XPipe => x_pipe(host, me, undo, *number),
        Call::XReadPipe { h, n } => buffers.read_pipe(alloc, host, taken, me, *h, *n),
        Call::XWritePipe { h, bytes, .. } => x_write_pipe(late, me, *h, bytes),
        Call::XShutdown { h, .. } => x_shutdown(late, me, *h),
        Call::XPair => x_pair(host, me, undo, *number),
        Call::XRecvmsg { h } => buffers.receive(host, taken, me, *h),
        Call::XSendmsg { h, bytes, .. } => x_sendmsg(late, me, *h, bytes),
        Call::XThreadCreate { body, .. } => x_thread_create(late, body.value()),
        // The contract leaves none of these.
        Call::Save | Call::Keep | Call::Back => unreachable!(),
    }
}

fn is_on_words(call: &Call) -> bool
    ensures { result ≡ is_word_call call.now }
{
    call.word().is_some()
}

// What a call may change of the private state, as it was before.
#[derive(Clone, Copy)]
struct Before {
    place: Place,
    made: u16,
    stored: u32,
}

// What is at the handle that a call may change; nothing, where it gives one.
fn place_before(me: &Private, call: &Call) -> Place
    ensures { result ≡ place_before call.now me.now.places }
{
    match call.handle_use() {
        HandleUse::At(h) => me.place(h),
        HandleUse::Unchanged | HandleUse::New | HandleUse::NewPair => Place::Vacant,
    }
}

fn state_before(me: &Private, call: &Call) -> Before
    ensures { result ≡ record { place = place_before call.now me.now.places; made = me.now.made; stored = me.now.stored } }
{
    Before {
        place: place_before(me, call),
        made: me.made,
        stored: me.stored,
    }
}

fn handle_in(reply: &Reply) -> Option<u16>
    ensures { result ≡ handle_in reply.now }
{
    match reply {
        Reply::Made(h) => Some(*h),
        // No other reply gives one; two handles take no memory, and so are never put back.
        _ => None,
    }
}

// The handle at which a call with this reply may have changed what is there.
fn changed_at(call: &Call, reply: &Reply) -> Option<u16>
    ensures { result ≡ changed_at call.now reply.now }
{
    match call.handle_use() {
        HandleUse::At(h) => Some(h),
        HandleUse::New => handle_in(reply),
        // Two handles take no memory, and so are never put back.
        HandleUse::Unchanged | HandleUse::NewPair => None,
    }
}

fn put_place(places: &mut [Place; 256], h: u16, place: Place)
    ensures { places.new ≡ slice_set places.old h place }
{
    if (h as usize) < places.len() {
        places[h as usize] = place;
    }
}

// The private state is as it was before a call whose reply brings a value.
fn put_back(me: &mut Private, call: &Call, reply: &Reply, before: &Before)
    requires { value_in reply.now ≢ None }
    ensures { (tx : ℕ) (was : PlainPrivate) → IsMeAfter tx call.now reply.now was me.old
        → before.now ≡ record { place = place_before call.now was.places; made = was.made; stored = was.stored } → me.new ≡ was }
{
    if let Some(h) = changed_at(call, reply) {
        put_place(&mut me.places, h, before.place);
    }
    me.made = before.made;
    me.stored = before.stored;
}

// A call that may change the handles. They are put back where memory runs out after it, for the variable that takes the
// reply.
fn do_host_call<H: Host>(
    alloc: Global,
    host: &mut H,
    buffers: &mut Buffers,
    words: &Words,
    script: &Script,
    place: &mut JobState,
    tx: &mut Tx,
    call: &Call,
) -> Result<Reply, NoMemory>
    requires asked { IsScripted script.now → asks (walk_of script.now place.old) ≡ AskedCall call.now }
    requires settled { IsPastSilent script.now place.old }
    requires may { MayGo (length words.now) (tx_view tx.old) }
    requires ready { IsTrue H.model.tells → AreReadyFor (tx_view tx.old) (H.model.contents host.old) }
    requires lent { IsTrue H.model.tells → IsLentFor tx.old.me.value tx.old.number call.now (H.model.contents host.old) buffers.old.kept }
    requires noted { length tx.old.taken.items ≤ buffers.old.noted }
    requires plain { (opens_or_closes call.now ≡ false) × (is_back call.now ≡ false) }
    ensures begun { begun_of tx.new ≡ begun_of tx.old }
    ensures notes { (tx.new.calls ≡ tx.old.calls) × (tx.new.replies ≡ tx.old.replies) }
    ensures walk { IfOk result (λ reply. walk_of script.now place.new ≡ answered (walk_of script.now place.old) reply) }
    ensures nearer { IsScripted script.now → OnOk result (place.old.at < place.new.at) }
    ensures begin { IsSameBegin place.old place.new }
    ensures values { place.new.saved ≡ place.old.saved }
    ensures save { (tx.new.saved ≡ tx.old.saved) × (tx.new.writes.saved ≡ tx.old.writes.saved) }
    ensures err_place { OnErr result (place.new ≡ place.old) }
    ensures noted { buffers.new.noted + length tx.old.taken.items ≡ buffers.old.noted + length tx.new.taken.items }
    ensures backs { IsTrue H.model.tells → StaysBacked (H.model.contents host.old) buffers.old.kept buffers.new.kept }
    ensures acted { HasActedAsPlain H.model call.now (acting host.old buffers.old.kept words.now tx.old)
        (acting host.new buffers.new.kept words.now tx.new) result }
{
    tx.keep(alloc)?;
    let before = state_before(&tx.me, call);
    let noted = buffers.noted();
    let reply = act(alloc, host, buffers, words, tx, call)?;
    if place.answer(script, &reply).is_err() {
        put_back(&mut tx.me, call, &reply, &before);
        if noted < buffers.noted() {
            buffers.give_last(&mut tx.taken);
        }
        return Err(NoMemory);
    }
    Ok(reply)
}

// A call that opens or closes an inner block.
fn is_block_end(call: &Call) -> bool
    ensures { result ≡ opens_or_closes call.now }
{
    matches!(call, Call::Save | Call::Keep)
}

/// Does the call that is asked, which is no back, and goes on after its reply; where clients ask, the place stays. Without memory the place
/// is as it was, and so are the handles, also where it runs out after the call, for the variable that takes the reply.
pub fn do_call<H: Host>(
    alloc: Global,
    host: &mut H,
    buffers: &mut Buffers,
    words: &Words,
    script: &Script,
    place: &mut JobState,
    tx: &mut Tx,
    call: &Call,
) -> Result<Reply, NoMemory>
    requires asked { IsScripted script.now → asks (walk_of script.now place.old) ≡ AskedCall call.now }
    requires settled { IsPastSilent script.now place.old }
    requires may { MayGo (length words.now) (tx_view tx.old) }
    requires ready { IsTrue H.model.tells → AreReadyFor (tx_view tx.old) (H.model.contents host.old) }
    requires lent { IsTrue H.model.tells → IsLentFor tx.old.me.value tx.old.number call.now (H.model.contents host.old) buffers.old.kept }
    requires noted { length tx.old.taken.items ≤ buffers.old.noted }
    requires ahead { is_back call.now ≡ false }
    requires fits { fits_block (is_some tx.old.saved) call.now ≡ true }
    requires together { is_some place.old.saved ≡ is_some tx.old.saved }
    requires save { HasSave tx.old tx.old.saved }
    ensures begun { begun_of tx.new ≡ begun_of tx.old }
    ensures notes { (tx.new.calls ≡ tx.old.calls) × (tx.new.replies ≡ tx.old.replies) }
    ensures walk { IfOk result (λ reply. walk_of script.now place.new ≡ answered (walk_of script.now place.old) reply) }
    ensures nearer { IsScripted script.now → OnOk result (place.old.at < place.new.at) }
    ensures begin { IsSameBegin place.old place.new }
    ensures values { OnOk result (place.new.saved ≡ saved_by call.now place.old.saved (walk_of script.now place.old).variables.values) }
    ensures saved { OnOk result ((tx_view tx.new).saved ≡ saved_by call.now (tx_view tx.old).saved (copied (tx_view tx.new))) }
    ensures err_saved { OnErr result ((tx_view tx.new).saved ≡ (tx_view tx.old).saved) }
    ensures save { HasSave tx.new tx.new.saved }
    ensures blocks { IfOk result (IsDoneWhere (opens_or_closes call.now)) }
    ensures err_place { OnErr result (place.new ≡ place.old) }
    ensures noted { buffers.new.noted + length tx.old.taken.items ≡ buffers.old.noted + length tx.new.taken.items }
    ensures backs { IsTrue H.model.tells → StaysBacked (H.model.contents host.old) buffers.old.kept buffers.new.kept }
    ensures acted { HasActedAsPlain H.model call.now (acting host.old buffers.old.kept words.now tx.old)
        (acting host.new buffers.new.kept words.now tx.new) result }
{
    if is_block_end(call) {
        return do_block_call(alloc, script, place, tx, call);
    }
    if !is_on_words(call) {
        return do_host_call(alloc, host, buffers, words, script, place, tx, call);
    }
    let reply = act(alloc, host, buffers, words, tx, call)?;
    place.answer(script, &reply)?;
    Ok(reply)
}
