ghost use Rattle.std.specs.Prelude.{◌≡◌};
ghost use Rattle.xc_lines.specs.Parts.{GivesRead, name_at};
ghost use Rattle.xc_lines.specs.Calls.{two_numbers_at, two_names_at, handle_number_at, handle_bytes_at, slot_at};
ghost use Rattle.xc_lines.specs.Calls.{name_slot_at, ident_slot_at, handle_slot_at, handle_bytes_slot_at};
ghost use Rattle.xc_lines.specs.Calls.{load_at, store_at, open_call_at, create_at, read_call_at, overwrite_call_at, append_call_at};
ghost use Rattle.xc_lines.specs.Calls.{seek_call_at};
ghost use Rattle.xc_lines.specs.Calls.{len_call_at, rename_at, close_at, read_pipe_call_at, receive_call_at, unlink_at, sync_at};
ghost use Rattle.xc_lines.specs.Calls.{write_pipe_at};
ghost use Rattle.xc_lines.specs.Calls.{shut_down_at, send_at, start_at};
ghost use Rattle.xc_lines.specs.Calls.{block_call_at, late_call_at, pipe_call_at, file_call_at, call_at};

use crate::cursor::Cursor;
use crate::stop::ReadStop;
use std::alloc::Global;
use xc_data::{Boxed, Call, Chunk, Ident, SharedName, SlotName};

#[tactic(auto, unfolding(crate::specs::Calls::two_numbers_at))]
fn two_numbers(text: &mut Cursor) -> Result<(u64, u64), ReadStop>
    ensures { GivesRead result text.new (two_numbers_at text.old) }
{
    let a = text.number()?;
    text.pass(b" ")?;
    let b = text.number()?;
    Ok((a, b))
}

// A name in a place that is never given back, as calls have it.
fn shared_name(alloc: Global, text: &mut Cursor) -> Result<SharedName, ReadStop>
    ensures { GivesRead result text.new (name_at text.old) }
{
    let name = text.name()?;
    Ok(SharedName::new(alloc, name)?)
}

#[tactic(auto, unfolding(crate::specs::Calls::two_names_at))]
fn two_names(alloc: Global, text: &mut Cursor) -> Result<(SharedName, SharedName), ReadStop>
    ensures { GivesRead result text.new (two_names_at text.old) }
{
    let a = shared_name(alloc, text)?;
    text.pass(b" ")?;
    let b = shared_name(alloc, text)?;
    Ok((a, b))
}

#[tactic(auto, unfolding(crate::specs::Calls::handle_number_at))]
fn handle_number(text: &mut Cursor) -> Result<(u16, u64), ReadStop>
    ensures { GivesRead result text.new (handle_number_at text.old) }
{
    let h = text.handle()?;
    text.pass(b" ")?;
    let n = text.number()?;
    Ok((h, n))
}

#[tactic(auto, unfolding(crate::specs::Calls::handle_bytes_at))]
fn handle_bytes(alloc: Global, text: &mut Cursor) -> Result<(u16, Chunk), ReadStop>
    ensures { GivesRead result text.new (handle_bytes_at text.old) }
{
    let h = text.handle()?;
    text.pass(b" ")?;
    let bytes = text.bytes(alloc)?;
    Ok((h, bytes))
}

#[tactic(auto, unfolding(crate::specs::Calls::slot_at))]
fn slot(alloc: Global, text: &mut Cursor) -> Result<SlotName, ReadStop>
    ensures { GivesRead result text.new (slot_at text.old) }
{
    if text.passes(b" slot ") {
        let ident = text.ident()?;
        return Ok(SlotName::new(alloc, Some(ident))?);
    }
    Ok(SlotName::new(alloc, None)?)
}

#[tactic(auto, unfolding(crate::specs::Calls::name_slot_at))]
fn name_slot(alloc: Global, text: &mut Cursor) -> Result<(SharedName, SlotName), ReadStop>
    ensures { GivesRead result text.new (name_slot_at text.old) }
{
    let name = shared_name(alloc, text)?;
    let slot = slot(alloc, text)?;
    Ok((name, slot))
}

#[tactic(auto, unfolding(crate::specs::Calls::ident_slot_at))]
fn ident_slot(alloc: Global, text: &mut Cursor) -> Result<(Boxed<Ident>, SlotName), ReadStop>
    ensures { GivesRead result text.new (ident_slot_at text.old) }
{
    let ident = Boxed::new(alloc, text.ident()?)?;
    let slot = slot(alloc, text)?;
    Ok((ident, slot))
}

#[tactic(auto, unfolding(crate::specs::Calls::handle_slot_at))]
fn handle_slot(alloc: Global, text: &mut Cursor) -> Result<(u16, SlotName), ReadStop>
    ensures { GivesRead result text.new (handle_slot_at text.old) }
{
    let h = text.handle()?;
    let slot = slot(alloc, text)?;
    Ok((h, slot))
}

#[tactic(auto, unfolding(crate::specs::Calls::handle_bytes_slot_at))]
fn handle_bytes_slot(alloc: Global, text: &mut Cursor) -> Result<(u16, Chunk, SlotName), ReadStop>
    ensures { GivesRead result text.new (handle_bytes_slot_at text.old) }
{
    let (h, bytes) = handle_bytes(alloc, text)?;
    let slot = slot(alloc, text)?;
    Ok((h, bytes, slot))
}

#[tactic(auto, unfolding(crate::specs::Calls::load_at))]
fn load(text: &mut Cursor) -> Result<Call, ReadStop>
    ensures { GivesRead result text.new (load_at text.old) }
{
    let at = text.number()?;
    Ok(Call::Load { at })
}

#[tactic(auto, unfolding(crate::specs::Calls::store_at))]
fn store(text: &mut Cursor) -> Result<Call, ReadStop>
    ensures { GivesRead result text.new (store_at text.old) }
{
    let (at, value) = two_numbers(text)?;
    Ok(Call::Store { at, value })
}

#[tactic(auto, unfolding(crate::specs::Calls::open_call_at))]
fn open(alloc: Global, text: &mut Cursor) -> Result<Call, ReadStop>
    ensures { GivesRead result text.new (open_call_at text.old) }
{
    let name = shared_name(alloc, text)?;
    Ok(Call::XOpen { name })
}

#[tactic(auto, unfolding(crate::specs::Calls::create_at))]
fn create(alloc: Global, text: &mut Cursor) -> Result<Call, ReadStop>
    ensures { GivesRead result text.new (create_at text.old) }
{
    let name = shared_name(alloc, text)?;
    Ok(Call::XCreate { name })
}

#[tactic(auto, unfolding(crate::specs::Calls::read_call_at))]
fn read(text: &mut Cursor) -> Result<Call, ReadStop>
    ensures { GivesRead result text.new (read_call_at text.old) }
{
    let (h, n) = handle_number(text)?;
    Ok(Call::XRead { h, n })
}

#[tactic(auto, unfolding(crate::specs::Calls::overwrite_call_at))]
fn overwrite(alloc: Global, text: &mut Cursor) -> Result<Call, ReadStop>
    ensures { GivesRead result text.new (overwrite_call_at text.old) }
{
    let (h, bytes) = handle_bytes(alloc, text)?;
    Ok(Call::XWriteOvr { h, bytes })
}

#[tactic(auto, unfolding(crate::specs::Calls::append_call_at))]
fn append(alloc: Global, text: &mut Cursor) -> Result<Call, ReadStop>
    ensures { GivesRead result text.new (append_call_at text.old) }
{
    let (h, bytes) = handle_bytes(alloc, text)?;
    Ok(Call::XWriteSeq { h, bytes })
}

#[tactic(auto, unfolding(crate::specs::Calls::seek_call_at))]
fn seek(text: &mut Cursor) -> Result<Call, ReadStop>
    ensures { GivesRead result text.new (seek_call_at text.old) }
{
    let (h, to) = handle_number(text)?;
    Ok(Call::XSeek { h, to })
}

#[tactic(auto, unfolding(crate::specs::Calls::len_call_at))]
fn len(text: &mut Cursor) -> Result<Call, ReadStop>
    ensures { GivesRead result text.new (len_call_at text.old) }
{
    let h = text.handle()?;
    Ok(Call::XLen { h })
}

#[tactic(auto, unfolding(crate::specs::Calls::rename_at))]
fn rename(alloc: Global, text: &mut Cursor) -> Result<Call, ReadStop>
    ensures { GivesRead result text.new (rename_at text.old) }
{
    let (from, to) = two_names(alloc, text)?;
    Ok(Call::XRename { from, to })
}

#[tactic(auto, unfolding(crate::specs::Calls::close_at))]
fn close(text: &mut Cursor) -> Result<Call, ReadStop>
    ensures { GivesRead result text.new (close_at text.old) }
{
    let h = text.handle()?;
    Ok(Call::XClose { h })
}

#[tactic(auto, unfolding(crate::specs::Calls::read_pipe_call_at))]
fn read_pipe(text: &mut Cursor) -> Result<Call, ReadStop>
    ensures { GivesRead result text.new (read_pipe_call_at text.old) }
{
    let (h, n) = handle_number(text)?;
    Ok(Call::XReadPipe { h, n })
}

#[tactic(auto, unfolding(crate::specs::Calls::receive_call_at))]
fn receive(text: &mut Cursor) -> Result<Call, ReadStop>
    ensures { GivesRead result text.new (receive_call_at text.old) }
{
    let h = text.handle()?;
    Ok(Call::XRecvmsg { h })
}

#[tactic(auto, unfolding(crate::specs::Calls::unlink_at))]
fn unlink(alloc: Global, text: &mut Cursor) -> Result<Call, ReadStop>
    ensures { GivesRead result text.new (unlink_at text.old) }
{
    let (name, slot) = name_slot(alloc, text)?;
    Ok(Call::XUnlink { name, slot })
}

#[tactic(auto, unfolding(crate::specs::Calls::sync_at))]
fn sync(alloc: Global, text: &mut Cursor) -> Result<Call, ReadStop>
    ensures { GivesRead result text.new (sync_at text.old) }
{
    let (h, slot) = handle_slot(alloc, text)?;
    Ok(Call::XSync { h, slot })
}

#[tactic(auto, unfolding(crate::specs::Calls::write_pipe_at))]
fn write_pipe(alloc: Global, text: &mut Cursor) -> Result<Call, ReadStop>
    ensures { GivesRead result text.new (write_pipe_at text.old) }
{
    let (h, bytes, slot) = handle_bytes_slot(alloc, text)?;
    Ok(Call::XWritePipe { h, bytes, slot })
}

#[tactic(auto, unfolding(crate::specs::Calls::shut_down_at))]
fn shut_down(alloc: Global, text: &mut Cursor) -> Result<Call, ReadStop>
    ensures { GivesRead result text.new (shut_down_at text.old) }
{
    let (h, slot) = handle_slot(alloc, text)?;
    Ok(Call::XShutdown { h, slot })
}

#[tactic(auto, unfolding(crate::specs::Calls::send_at))]
fn send(alloc: Global, text: &mut Cursor) -> Result<Call, ReadStop>
    ensures { GivesRead result text.new (send_at text.old) }
{
    let (h, bytes, slot) = handle_bytes_slot(alloc, text)?;
    Ok(Call::XSendmsg { h, bytes, slot })
}

#[tactic(auto, unfolding(crate::specs::Calls::start_at))]
fn start(alloc: Global, text: &mut Cursor) -> Result<Call, ReadStop>
    ensures { GivesRead result text.new (start_at text.old) }
{
    let (body, slot) = ident_slot(alloc, text)?;
    Ok(Call::XThreadCreate { body, slot })
}

#[tactic(auto, unfolding(crate::specs::Calls::block_call_at))]
fn block_call(text: &mut Cursor) -> Result<Call, ReadStop>
    ensures { GivesRead result text.new (block_call_at text.old) }
{
    if text.passes(b"save") {
        return Ok(Call::Save);
    }
    if text.passes(b"keep") {
        return Ok(Call::Keep);
    }
    if text.passes(b"back") {
        return Ok(Call::Back);
    }
    Err(ReadStop::Unread)
}

#[tactic(auto, unfolding(crate::specs::Calls::late_call_at))]
fn late_call(alloc: Global, text: &mut Cursor) -> Result<Call, ReadStop>
    ensures { GivesRead result text.new (late_call_at text.old) }
{
    if text.passes(b"x_sync ") {
        return sync(alloc, text);
    }
    if text.passes(b"x_write_pipe ") {
        return write_pipe(alloc, text);
    }
    if text.passes(b"x_shutdown ") {
        return shut_down(alloc, text);
    }
    if text.passes(b"x_sendmsg ") {
        return send(alloc, text);
    }
    if text.passes(b"x_thread_create ") {
        return start(alloc, text);
    }
    block_call(text)
}

#[tactic(auto, unfolding(crate::specs::Calls::pipe_call_at))]
fn pipe_call(alloc: Global, text: &mut Cursor) -> Result<Call, ReadStop>
    ensures { GivesRead result text.new (pipe_call_at text.old) }
{
    if text.passes(b"x_read_pipe ") {
        return read_pipe(text);
    }
    if text.passes(b"x_pair") {
        return Ok(Call::XPair);
    }
    if text.passes(b"x_recvmsg ") {
        return receive(text);
    }
    if text.passes(b"x_unlink ") {
        return unlink(alloc, text);
    }
    late_call(alloc, text)
}

#[tactic(auto, unfolding(crate::specs::Calls::file_call_at))]
fn file_call(alloc: Global, text: &mut Cursor) -> Result<Call, ReadStop>
    ensures { GivesRead result text.new (file_call_at text.old) }
{
    if text.passes(b"x_write_seq ") {
        return append(alloc, text);
    }
    if text.passes(b"x_seek ") {
        return seek(text);
    }
    if text.passes(b"x_len ") {
        return len(text);
    }
    if text.passes(b"x_rename ") {
        return rename(alloc, text);
    }
    if text.passes(b"x_close ") {
        return close(text);
    }
    if text.passes(b"x_pipe") {
        return Ok(Call::XPipe);
    }
    pipe_call(alloc, text)
}

/// A call, which stands here without the two spaces before it. A name and a slot take a place that is never given back: some 70
/// bytes for a name, and some 40 for a slot, also where none is named.
#[tactic(auto, unfolding(crate::specs::Calls::call_at))]
pub fn read_call(alloc: Global, text: &mut Cursor) -> Result<Call, ReadStop>
    ensures { GivesRead result text.new (call_at text.old) }
{
    if text.passes(b"load ") {
        return load(text);
    }
    if text.passes(b"store ") {
        return store(text);
    }
    if text.passes(b"x_open ") {
        return open(alloc, text);
    }
    if text.passes(b"x_create ") {
        return create(alloc, text);
    }
    if text.passes(b"x_read ") {
        return read(text);
    }
    if text.passes(b"x_write_ovr ") {
        return overwrite(alloc, text);
    }
    file_call(alloc, text)
}
