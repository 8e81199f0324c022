ghost use Rattle.std.specs.Prelude.{◌≡◌, ◌≤◌, length, IfOk, Some, None, if◌then◌else◌};
ghost use Rattle.xc_data.specs.declared.call.Call.TheVariants.{XSendmsg, XWriteOvr, XWritePipe, XWriteSeq};
ghost use Rattle.xc_script.specs.Walks.{is_over};
ghost use Rattle.xc_script.specs.Asking.{unless_over};
ghost use Rattle.xc_script.specs.Values.{joined_data, handle_value};
ghost use Rattle.xc_script.specs.Asking.{name_of_slot, ask_of};
ghost use Rattle.xc_script.specs.Walks.{carried_by};
ghost use Rattle.xc_text.specs.Kept.{said_by};

use crate::calls::{
    load, store, x_close, x_create, x_len, x_open, x_read, x_read_pipe, x_recvmsg, x_rename,
    x_seek, x_shutdown, x_sync, x_thread_create, x_unlink,
};
use crate::data::{data_in, data_len};
use crate::terms::handle_in;
use crate::value::Variables;
use std::alloc::Global;
use xc_data::{Call, Chunk, MOST_STORED, NoMemory, SlotName};
use xc_text::{Data, Expression, Form, KeptStatement, NameIndex};

/// What a job is asked to do next.
#[derive(Drop)]
pub enum Ask {
    Call(Call),
    Commit,
    /// The transaction aborts itself.
    Abort,
    /// No transaction is left.
    End,
}

// The length of a write's data; none where it is over what the transaction, which has stored `stored` bytes, may store.
// It is counted before the bytes are joined, in 128 bits, so no sum of lengths wraps.
fn room_for(variables: &Variables, stored: u128, items: &Data<NameIndex>) -> Option<usize>
    ensures { let n = length (joined_data variables.now items.now) in result ≡ (if is_over stored n then None else Some n) }
{
    let Some(len) = data_len(variables, items) else {
        return None;
    };
    if stored > (MOST_STORED as usize - len) as u128 {
        return None;
    }
    Some(len)
}

// The data of a write, where the transaction, which has stored `stored` bytes, may store it.
fn data_within(
    alloc: Global,
    variables: &Variables,
    stored: u128,
    items: &Data<NameIndex>,
) -> Result<Option<Chunk>, NoMemory>
    ensures { let bytes = joined_data variables.now items.now in
        IfOk result (λ found. found ≡ (if is_over stored (length bytes) then None else Some bytes)) }
{
    if room_for(variables, stored, items).is_none() {
        return Ok(None);
    }
    Ok(Some(data_in(alloc, variables, items)?))
}

// An overwrite through a handle, or the transaction's own abort.
fn x_write_ovr(
    alloc: Global,
    variables: &Variables,
    stored: u128,
    handle: NameIndex,
    items: &Data<NameIndex>,
) -> Result<Ask, NoMemory>
    ensures { IfOk result (λ ask. ask
        ≡ unless_over stored (XWriteOvr (handle_value variables.now handle) (joined_data variables.now items.now))) }
{
    let h = handle_in(variables, handle);
    match data_within(alloc, variables, stored, items)? {
        Some(bytes) => Ok(Ask::Call(Call::XWriteOvr { h, bytes })),
        None => Ok(Ask::Abort),
    }
}

// An append through a handle, or the transaction's own abort.
fn x_write_seq(
    alloc: Global,
    variables: &Variables,
    stored: u128,
    handle: NameIndex,
    items: &Data<NameIndex>,
) -> Result<Ask, NoMemory>
    ensures { IfOk result (λ ask. ask
        ≡ unless_over stored (XWriteSeq (handle_value variables.now handle) (joined_data variables.now items.now))) }
{
    let h = handle_in(variables, handle);
    match data_within(alloc, variables, stored, items)? {
        Some(bytes) => Ok(Ask::Call(Call::XWriteSeq { h, bytes })),
        None => Ok(Ask::Abort),
    }
}

// The data and the slot of a late call, where the transaction, which has stored `stored` bytes, may store the data.
fn late_data(
    alloc: Global,
    variables: &Variables,
    stored: u128,
    items: &Data<NameIndex>,
    slot: Option<NameIndex>,
) -> Result<Option<(Chunk, SlotName)>, NoMemory>
    ensures { let bytes = joined_data variables.now items.now in
        IfOk result (λ found. found
        ≡ (if is_over stored (length bytes) then None else Some (bytes, name_of_slot variables.now slot))) }
{
    match data_within(alloc, variables, stored, items)? {
        Some(bytes) => Ok(Some((bytes, variables.slot_name(slot)))),
        None => Ok(None),
    }
}

// Bytes for a pipe through a handle, or the transaction's own abort.
fn x_write_pipe(
    alloc: Global,
    variables: &Variables,
    stored: u128,
    handle: NameIndex,
    items: &Data<NameIndex>,
    slot: Option<NameIndex>,
) -> Result<Ask, NoMemory>
    ensures { IfOk result (λ ask. ask
        ≡ unless_over stored (XWritePipe (handle_value variables.now handle) (joined_data variables.now items.now)
        (name_of_slot variables.now slot))) }
{
    let h = handle_in(variables, handle);
    match late_data(alloc, variables, stored, items, slot)? {
        Some((bytes, slot)) => Ok(Ask::Call(Call::XWritePipe { h, bytes, slot })),
        None => Ok(Ask::Abort),
    }
}

// A message for a pair through a handle, or the transaction's own abort.
fn x_sendmsg(
    alloc: Global,
    variables: &Variables,
    stored: u128,
    handle: NameIndex,
    items: &Data<NameIndex>,
    slot: Option<NameIndex>,
) -> Result<Ask, NoMemory>
    ensures { IfOk result (λ ask. ask
        ≡ unless_over stored (XSendmsg (handle_value variables.now handle) (joined_data variables.now items.now)
        (name_of_slot variables.now slot))) }
{
    let h = handle_in(variables, handle);
    match late_data(alloc, variables, stored, items, slot)? {
        Some((bytes, slot)) => Ok(Ask::Call(Call::XSendmsg { h, bytes, slot })),
        None => Ok(Ask::Abort),
    }
}

// What a statement in this form asks that isn't silent, behind `stored` stored bytes.
fn form_ask(
    alloc: Global,
    variables: &Variables,
    stored: u128,
    form: &Form,
) -> Result<Ask, NoMemory>
    ensures { IfOk result (λ ask. ask ≡ ask_of variables.now stored (said_by form.now)) }
{
    match form {
        Form::Load { at, .. } => Ok(Ask::Call(load(variables, *at))),
        Form::Store { at, value } => {
            Ok(Ask::Call(store(variables, *at, Expression::Term(*value))))
        }
        Form::StoreSum { at, left, right } => {
            Ok(Ask::Call(store(variables, *at, Expression::Sum(*left, *right))))
        }
        Form::StoreDifference { at, left, right } => {
            Ok(Ask::Call(store(variables, *at, Expression::Difference(*left, *right))))
        }
        Form::XOpen { name, .. } => Ok(Ask::Call(x_open(name))),
        Form::XCreate { name, .. } => Ok(Ask::Call(x_create(name))),
        Form::XRename { from, to } => Ok(Ask::Call(x_rename(from, to))),
        Form::XRead { handle, n, .. } => Ok(Ask::Call(x_read(variables, *handle, *n))),
        Form::XWriteOvr { handle, data } => x_write_ovr(alloc, variables, stored, *handle, data),
        Form::XWriteSeq { handle, data } => x_write_seq(alloc, variables, stored, *handle, data),
        Form::XSeek { handle, to } => Ok(Ask::Call(x_seek(variables, *handle, *to))),
        Form::XLen { handle, .. } => Ok(Ask::Call(x_len(variables, *handle))),
        Form::XClose { handle } => Ok(Ask::Call(x_close(variables, *handle))),
        Form::XUnlink { slot, name } => Ok(Ask::Call(x_unlink(variables, name, *slot))),
        Form::XSync { handle, slot } => Ok(Ask::Call(x_sync(variables, *handle, *slot))),
        Form::XPipe { .. } => Ok(Ask::Call(Call::XPipe)),
        Form::XReadPipe { handle, n, .. } => Ok(Ask::Call(x_read_pipe(variables, *handle, *n))),
        Form::XWritePipe { handle, slot, data } => {
            x_write_pipe(alloc, variables, stored, *handle, data, *slot)
        }
        Form::XShutdown { handle, slot } => { Ok(Ask::Call(x_shutdown(variables, *handle, *slot))) }
        Form::XPair { .. } => Ok(Ask::Call(Call::XPair)),
        Form::XRecvmsg { handle, .. } => Ok(Ask::Call(x_recvmsg(variables, *handle))),
        Form::XSendmsg { handle, slot, data } => {
            x_sendmsg(alloc, variables, stored, *handle, data, *slot)
        }
        Form::XThreadCreate { slot, block } => Ok(Ask::Call(x_thread_create(
            alloc, variables, block, *slot,
        )?)),
        Form::Let { .. } | Form::LetSum { .. } | Form::LetDifference { .. } => Ok(Ask::Abort),
        Form::Abort | Form::AbortIf { .. } | Form::Require => Ok(Ask::Abort),
        Form::Save => Ok(Ask::Call(Call::Save)),
        Form::Keep => Ok(Ask::Call(Call::Keep)),
        Form::Back | Form::BackIf { .. } => Ok(Ask::Call(Call::Back)),
    }
}

/// What a statement asks that isn't silent, behind `stored` stored bytes. A `let` is always silent.
pub fn ask_of(
    alloc: Global,
    variables: &Variables,
    stored: u128,
    statement: &KeptStatement,
) -> Result<Ask, NoMemory>
    ensures { IfOk result (λ ask. ask ≡ ask_of variables.now stored statement.now) }
{
    form_ask(alloc, variables, stored, statement.form())
}

// How many bytes the data of a write has; 0 where the transaction, which has stored `stored` bytes, may not store them.
fn data_carried(variables: &Variables, stored: u128, items: &Data<NameIndex>) -> usize
    ensures value { let n = length (joined_data variables.now items.now) in result ≡ (if is_over stored n then 0 else n) }
    ensures bound { result ≤ 1024 }
{
    match room_for(variables, stored, items) {
        Some(len) => len,
        None => 0,
    }
}

fn form_carried(variables: &Variables, stored: u128, form: &Form) -> usize
    ensures value { result ≡ carried_by (ask_of variables.now stored (said_by form.now)) }
    ensures bound { result ≤ 1024 }
{
    match form {
        Form::XWriteOvr { data, .. } => data_carried(variables, stored, data),
        Form::XWriteSeq { data, .. } => data_carried(variables, stored, data),
        Form::XWritePipe { data, .. } => data_carried(variables, stored, data),
        Form::XSendmsg { data, .. } => data_carried(variables, stored, data),
        Form::Load { .. } | Form::Store { .. } | Form::StoreSum { .. } => 0,
        Form::StoreDifference { .. } | Form::XOpen { .. } => 0,
        Form::XCreate { .. } | Form::XRename { .. } | Form::XRead { .. } => 0,
        Form::XSeek { .. } | Form::XLen { .. } | Form::XClose { .. } => 0,
        Form::XUnlink { .. } | Form::XSync { .. } => 0,
        Form::XPipe { .. } | Form::XReadPipe { .. } | Form::XShutdown { .. } => 0,
        Form::XPair { .. } | Form::XRecvmsg { .. } | Form::XThreadCreate { .. } => 0,
        Form::Let { .. } | Form::LetSum { .. } | Form::LetDifference { .. } => 0,
        Form::Abort | Form::AbortIf { .. } | Form::Require => 0,
        Form::Save | Form::Keep | Form::Back | Form::BackIf { .. } => 0,
    }
}

/// How many bytes the call carries that a statement asks. It takes no memory.
pub fn carried(variables: &Variables, stored: u128, statement: &KeptStatement) -> usize
    ensures value { result ≡ carried_by (ask_of variables.now stored statement.now) }
    ensures bound { result ≤ 1024 }
{
    form_carried(variables, stored, statement.form())
}
