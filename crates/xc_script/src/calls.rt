ghost use Rattle.std.specs.Prelude.{◌≡◌, IfOk};
ghost use Rattle.xc_data.specs.declared.call.Call.TheVariants.{Load, Store, XClose, XCreate, XLen, XOpen, XRead, XRename, XSeek};
ghost use Rattle.xc_data.specs.declared.call.Call.TheVariants.{XReadPipe, XRecvmsg, XShutdown, XSync, XThreadCreate, XUnlink};
ghost use Rattle.xc_script.specs.Asking.{name_of_slot};
ghost use Rattle.xc_script.specs.Values.{expression_value, handle_value, term_value};

use crate::terms::{expression_of, handle_in, value_of};
use crate::value::Variables;
use std::alloc::Global;
use xc_data::{Boxed, Call, Ident, NoMemory, SharedName};
use xc_text::{Expression, NameIndex, Term};

// The calls that carry no bytes, each from the words of its line.

pub fn load(variables: &Variables, at: Term<NameIndex>) -> Call
    ensures { result ≡ Load (term_value variables.now at) }
{
    let at = value_of(variables, at);
    Call::Load { at }
}

pub fn store(variables: &Variables, at: Term<NameIndex>, value: Expression<NameIndex>) -> Call
    ensures { result ≡ Store (term_value variables.now at) (expression_value variables.now value) }
{
    Call::Store {
        at: value_of(variables, at),
        value: expression_of(variables, value),
    }
}

pub fn x_open(name: &SharedName) -> Call
    ensures { result ≡ XOpen name.now }
{
    Call::XOpen { name: name.again() }
}

pub fn x_create(name: &SharedName) -> Call
    ensures { result ≡ XCreate name.now }
{
    Call::XCreate { name: name.again() }
}

pub fn x_rename(from: &SharedName, to: &SharedName) -> Call
    ensures { result ≡ XRename from.now to.now }
{
    Call::XRename {
        from: from.again(),
        to: to.again(),
    }
}

pub fn x_read(variables: &Variables, handle: NameIndex, n: Term<NameIndex>) -> Call
    ensures { result ≡ XRead (handle_value variables.now handle) (term_value variables.now n) }
{
    Call::XRead {
        h: handle_in(variables, handle),
        n: value_of(variables, n),
    }
}

pub fn x_read_pipe(variables: &Variables, handle: NameIndex, n: Term<NameIndex>) -> Call
    ensures { result ≡ XReadPipe (handle_value variables.now handle) (term_value variables.now n) }
{
    Call::XReadPipe {
        h: handle_in(variables, handle),
        n: value_of(variables, n),
    }
}

pub fn x_seek(variables: &Variables, handle: NameIndex, to: Term<NameIndex>) -> Call
    ensures { result ≡ XSeek (handle_value variables.now handle) (term_value variables.now to) }
{
    Call::XSeek {
        h: handle_in(variables, handle),
        to: value_of(variables, to),
    }
}

pub fn x_len(variables: &Variables, handle: NameIndex) -> Call
    ensures { result ≡ XLen (handle_value variables.now handle) }
{
    let h = handle_in(variables, handle);
    Call::XLen { h }
}

pub fn x_recvmsg(variables: &Variables, handle: NameIndex) -> Call
    ensures { result ≡ XRecvmsg (handle_value variables.now handle) }
{
    let h = handle_in(variables, handle);
    Call::XRecvmsg { h }
}

pub fn x_close(variables: &Variables, handle: NameIndex) -> Call
    ensures { result ≡ XClose (handle_value variables.now handle) }
{
    let h = handle_in(variables, handle);
    Call::XClose { h }
}

pub fn x_unlink(variables: &Variables, name: &SharedName, slot: Option<NameIndex>) -> Call
    ensures { result ≡ XUnlink name.now (name_of_slot variables.now slot) }
{
    Call::XUnlink {
        name: name.again(),
        slot: variables.slot_name(slot),
    }
}

pub fn x_sync(variables: &Variables, handle: NameIndex, slot: Option<NameIndex>) -> Call
    ensures { result ≡ XSync (handle_value variables.now handle) (name_of_slot variables.now slot) }
{
    Call::XSync {
        h: handle_in(variables, handle),
        slot: variables.slot_name(slot),
    }
}

pub fn x_shutdown(variables: &Variables, handle: NameIndex, slot: Option<NameIndex>) -> Call
    ensures { result ≡ XShutdown (handle_value variables.now handle) (name_of_slot variables.now slot) }
{
    Call::XShutdown {
        h: handle_in(variables, handle),
        slot: variables.slot_name(slot),
    }
}

pub fn x_thread_create(
    alloc: Global,
    variables: &Variables,
    block: &Boxed<Ident>,
    slot: Option<NameIndex>,
) -> Result<Call, NoMemory>
    ensures { IfOk result (λ call. call ≡ XThreadCreate block.now (name_of_slot variables.now slot)) }
{
    Ok(Call::XThreadCreate {
        body: block.copied(alloc)?,
        slot: variables.slot_name(slot),
    })
}
