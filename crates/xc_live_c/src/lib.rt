//! Clients for C: the calls of their transactions one by one, over a host in memory. examples/live/xcalls.h declares them.
//!
//! C has a struct of one pointer, and sets it to null before `xc_open`. It gives it to one call at a time, so threads call under one
//! mutex of their own, and copies it never. Bytes and names are a pointer and a length. No call waits for another client.
#![tactic(auto)]

ghost use Rattle.std.specs.Prelude.{◌≡◌, ◌≢◌, ◌&&◌, pos, None, take, length, nat_le};
ghost use Rattle.xc_data.specs.Spelling.{is_name};
ghost use Rattle.xc_data.specs.declared.call.Call.TheVariants as call;
ghost use Rattle.xc_script.specs.declared.ask.Ask.TheVariants as ask;
ghost use Rattle.xc_live_c.specs.Finished.{IsCopiedInC, IsFinishedInC, freed_code};
ghost use Rattle.xc_live_c.specs.Handing.{IsHandedOutInC};
ghost use Rattle.xc_live_c.specs.Opened.{IsJournalInC, IsOpenedInC, closed_code};
ghost use Rattle.xc_live_c.specs.Told.{IsBegunInC, IsEndedInC, IsSaid, IsSaidInto, IsSaidOf, IsSaidWith, OfOpen, got_of, other_at};

mod asking;
mod clients;
mod codes;
mod counts;
mod ending;
mod growing;
mod handle;
mod law;
mod opening;
mod run_text;
mod text_handle;

use asking::{asked, at_name, at_names, no_slot, other_side, put_bytes};
pub use clients::{ANY_ATTEMPTS, Clients, MOST_CLIENTS};
pub use codes::{
    ABORTED, AGAIN, BAD_NAME, BAD_TEXT, BEGUN, CLOSED, ENDED, MISPLACED, NO_MEMORY, NOT_BEGUN, OK,
    OPEN, REFUSED, TOO_MANY_NAMES, TOO_SMALL, WAIT,
};
use ending::{finished, has_text};
pub use handle::DeskHandle;
pub use law::the_texts_make_the_run;
use opening::opened;
pub use run_text::RunText;
use std::alloc::Global;
pub use text_handle::TextHandle;
use xc_data::{Call, Chunk, MOST_CALL_BYTES};

/// Opens a desk: so many words and clients, over the files, pipes and pairs of a prologue's lines. Where the text is refused, `line` is
/// the number of its first bad line, counted from 1, or 0. Attempts at one transaction have no bound.
#[unsafe(no_mangle)]
pub extern "C" fn xc_open(
    alloc: Global,
    desk: &mut DeskHandle,
    words: u32,
    clients: u32,
    prologue: &[u8],
    line: &mut u32,
) -> i32
    ensures { IsOpenedInC (record { prologue = prologue.now; words = words; clients = clients; attempts = 4294967295 })
        desk.old.value desk.new.value result line.new }
{
    opened(alloc, desk, words, clients, ANY_ATTEMPTS, prologue, line)
}

/// The same, with a bound: a client whose transaction was rolled back so often because of others begins no more.
#[unsafe(no_mangle)]
pub extern "C" fn xc_open_with(
    alloc: Global,
    desk: &mut DeskHandle,
    words: u32,
    clients: u32,
    attempts: u32,
    prologue: &[u8],
    line: &mut u32,
) -> i32
    ensures { IsOpenedInC (record { prologue = prologue.now; words = words; clients = clients; attempts = attempts })
        desk.old.value desk.new.value result line.new }
{
    opened(alloc, desk, words, clients, attempts, prologue, line)
}

/// Closes a desk, and frees it. A transaction that goes on is dropped as it is.
#[unsafe(no_mangle)]
pub extern "C" fn xc_close(alloc: Global, desk: &mut DeskHandle) -> i32
    ensures closed { desk.new.value ≡ None }
    ensures code { result ≡ closed_code desk.old.value }
{
    match desk.take(alloc) {
        Some(_open) => OK,
        None => CLOSED,
    }
}

/// The printed entries that weren't handed out: `length` is how long they are, and they stand in front of `into` where there is room.
#[unsafe(no_mangle)]
pub extern "C" fn xc_journal(
    alloc: Global,
    desk: &mut DeskHandle,
    into: &mut [u8],
    length: &mut usize,
) -> i32
    ensures journal { IsJournalInC desk.old.value (record { old = into.old; new = into.new })
        (record { old = length.old; new = length.new }) result }
    ensures same { desk.new.value ≡ desk.old.value }
{
    let Some(open) = desk.take(alloc) else {
        return CLOSED;
    };
    let text = open.journal_text(alloc);
    desk.put(alloc, open);
    let Ok(text) = text else {
        return NO_MEMORY;
    };
    *length = text.len();
    if text.len() > into.len() {
        return TOO_SMALL;
    }
    into[..text.len()].copy_from_slice(text.as_slice());
    OK
}

/// Hands out the printed entries that weren't handed out, and keeps them as a text; `length` is how long it is. The desk goes on, and
/// holds them no more. Without memory nothing changes.
#[tactic(auto, using(crate::proofs::Handed::handed_twice, crate::proofs::Handed::handed_over, crate::proofs::Handed::not_handed))]
#[unsafe(no_mangle)]
pub extern "C" fn xc_hand_out(
    alloc: Global,
    desk: &mut DeskHandle,
    text: &mut TextHandle,
    length: &mut usize,
) -> i32
    ensures { IsHandedOutInC (record {
      old = record { desk = desk.old.value; text = text.old.value; size = length.old };
      new = record { desk = desk.new.value; text = text.new.value; size = length.new };
    }) result }
{
    let Some(mut open) = desk.take(alloc) else {
        return CLOSED;
    };
    if has_text(alloc, text) {
        desk.put(alloc, open);
        return OPEN;
    }
    let handed = open.hand_out(alloc);
    desk.put(alloc, open);
    let Ok(kept) = handed else {
        return NO_MEMORY;
    };
    *length = kept.bytes.len();
    text.put(alloc, kept);
    OK
}

/// Ends a desk on which no client has a transaction, and keeps the text of the run, without the entries that were handed out; `length`
/// is how long it is. Where there is no memory for the text, the desk is closed all the same.
#[tactic(auto, using(crate::proofs::Ends::twice, crate::proofs::Ends::held_up, crate::proofs::Ends::ended, crate::proofs::Ends::textless))]
#[unsafe(no_mangle)]
pub extern "C" fn xc_finish(
    alloc: Global,
    desk: &mut DeskHandle,
    text: &mut TextHandle,
    length: &mut usize,
) -> i32
    ensures { IsFinishedInC (record {
      old = record { desk = desk.old.value; text = text.old.value; size = length.old };
      new = record { desk = desk.new.value; text = text.new.value; size = length.new };
    }) result }
{
    let Some(open) = desk.take(alloc) else {
        return CLOSED;
    };
    if has_text(alloc, text) {
        desk.put(alloc, open);
        return OPEN;
    }
    if !open.is_quiet() {
        desk.put(alloc, open);
        return BEGUN;
    }
    let Ok(kept) = finished(alloc, open) else {
        return NO_MEMORY;
    };
    *length = kept.bytes.len();
    text.put(alloc, kept);
    OK
}

/// Copies the bytes of a text from a place on, as many as there is room for; `copied` says how many.
#[unsafe(no_mangle)]
pub extern "C" fn xc_copy_text(
    alloc: Global,
    text: &mut TextHandle,
    from: usize,
    into: &mut [u8],
    copied: &mut usize,
) -> i32
    ensures copied { IsCopiedInC text.old.value from (record { old = into.old; new = into.new })
        (record { old = copied.old; new = copied.new }) result }
    ensures same { text.new.value ≡ text.old.value }
{
    let Some(there) = text.take(alloc) else {
        return CLOSED;
    };
    *copied = there.copy(from, into);
    text.put(alloc, there);
    OK
}

/// Frees a text.
#[unsafe(no_mangle)]
pub extern "C" fn xc_free_text(alloc: Global, text: &mut TextHandle) -> i32
    ensures freed { text.new.value ≡ None }
    ensures code { result ≡ freed_code text.old.value }
{
    match text.take(alloc) {
        Some(_there) => OK,
        None => CLOSED,
    }
}

/// Begins a transaction of a client that has none.
#[unsafe(no_mangle)]
pub extern "C" fn xc_begin(alloc: Global, desk: &mut DeskHandle, client: u32) -> i32
    ensures { OfOpen (IsBegunInC client) (record { old = desk.old.value; new = desk.new.value }) result }
{
    let Some(mut open) = desk.take(alloc) else {
        return CLOSED;
    };
    let code = open.begin(client);
    desk.put(alloc, open);
    code
}

/// Commits a client's transaction.
#[unsafe(no_mangle)]
pub extern "C" fn xc_commit(alloc: Global, desk: &mut DeskHandle, client: u32) -> i32
    ensures { OfOpen (IsEndedInC client ask.Commit) (record { old = desk.old.value; new = desk.new.value }) result }
{
    let Some(mut open) = desk.take(alloc) else {
        return CLOSED;
    };
    let code = open.commit(client);
    desk.put(alloc, open);
    code
}

/// Undoes a client's transaction, by any thread that has the desk.
#[unsafe(no_mangle)]
pub extern "C" fn xc_abort(alloc: Global, desk: &mut DeskHandle, client: u32) -> i32
    ensures { OfOpen (IsEndedInC client ask.Abort) (record { old = desk.old.value; new = desk.new.value }) result }
{
    let Some(mut open) = desk.take(alloc) else {
        return CLOSED;
    };
    let code = open.abort(client);
    desk.put(alloc, open);
    code
}

/// Asks for the value of a word.
#[unsafe(no_mangle)]
pub extern "C" fn xc_load(
    alloc: Global,
    desk: &mut DeskHandle,
    client: u32,
    at: u64,
    kind: &mut u32,
    value: &mut u64,
) -> i32
    ensures { IsSaid client (call.Load at) (record { old = desk.old.value; new = desk.new.value })
        (record { code = result; kind = kind.new; value = value.new }) }
{
    asked(alloc, desk, client, Call::Load { at }, kind, value)
}

/// Stores a value in a word.
#[unsafe(no_mangle)]
pub extern "C" fn xc_store(
    alloc: Global,
    desk: &mut DeskHandle,
    client: u32,
    at: u64,
    new: u64,
    kind: &mut u32,
    value: &mut u64,
) -> i32
    ensures { IsSaid client (call.Store at new) (record { old = desk.old.value; new = desk.new.value })
        (record { code = result; kind = kind.new; value = value.new }) }
{
    asked(
        alloc,
        desk,
        client,
        Call::Store { at, value: new },
        kind,
        value,
    )
}

/// Sets the position of a file's handle.
#[unsafe(no_mangle)]
pub extern "C" fn xc_seek(
    alloc: Global,
    desk: &mut DeskHandle,
    client: u32,
    handle: u16,
    to: u64,
    kind: &mut u32,
    value: &mut u64,
) -> i32
    ensures { IsSaid client (call.XSeek handle to) (record { old = desk.old.value; new = desk.new.value })
        (record { code = result; kind = kind.new; value = value.new }) }
{
    asked(
        alloc,
        desk,
        client,
        Call::XSeek { h: handle, to },
        kind,
        value,
    )
}

/// Asks for the length of a handle's file.
#[unsafe(no_mangle)]
pub extern "C" fn xc_length(
    alloc: Global,
    desk: &mut DeskHandle,
    client: u32,
    handle: u16,
    kind: &mut u32,
    value: &mut u64,
) -> i32
    ensures { IsSaid client (call.XLen handle) (record { old = desk.old.value; new = desk.new.value })
        (record { code = result; kind = kind.new; value = value.new }) }
{
    asked(alloc, desk, client, Call::XLen { h: handle }, kind, value)
}

/// Gives up a handle, of a file, a pipe or a side of a pair.
#[unsafe(no_mangle)]
pub extern "C" fn xc_close_handle(
    alloc: Global,
    desk: &mut DeskHandle,
    client: u32,
    handle: u16,
    kind: &mut u32,
    value: &mut u64,
) -> i32
    ensures { IsSaid client (call.XClose handle) (record { old = desk.old.value; new = desk.new.value })
        (record { code = result; kind = kind.new; value = value.new }) }
{
    asked(alloc, desk, client, Call::XClose { h: handle }, kind, value)
}

/// Makes an empty pipe.
#[unsafe(no_mangle)]
pub extern "C" fn xc_pipe(
    alloc: Global,
    desk: &mut DeskHandle,
    client: u32,
    kind: &mut u32,
    value: &mut u64,
) -> i32
    ensures { IsSaid client call.XPipe (record { old = desk.old.value; new = desk.new.value })
        (record { code = result; kind = kind.new; value = value.new }) }
{
    asked(alloc, desk, client, Call::XPipe, kind, value)
}

/// Begins an inner block.
#[unsafe(no_mangle)]
pub extern "C" fn xc_save(
    alloc: Global,
    desk: &mut DeskHandle,
    client: u32,
    kind: &mut u32,
    value: &mut u64,
) -> i32
    ensures { IsSaid client call.Save (record { old = desk.old.value; new = desk.new.value })
        (record { code = result; kind = kind.new; value = value.new }) }
{
    asked(alloc, desk, client, Call::Save, kind, value)
}

/// Ends an inner block, and keeps what it did.
#[unsafe(no_mangle)]
pub extern "C" fn xc_keep(
    alloc: Global,
    desk: &mut DeskHandle,
    client: u32,
    kind: &mut u32,
    value: &mut u64,
) -> i32
    ensures { IsSaid client call.Keep (record { old = desk.old.value; new = desk.new.value })
        (record { code = result; kind = kind.new; value = value.new }) }
{
    asked(alloc, desk, client, Call::Keep, kind, value)
}

/// Ends an inner block, and goes back to where it began. The value counts the faults on the way.
#[unsafe(no_mangle)]
pub extern "C" fn xc_back(
    alloc: Global,
    desk: &mut DeskHandle,
    client: u32,
    kind: &mut u32,
    value: &mut u64,
) -> i32
    ensures { IsSaid client call.Back (record { old = desk.old.value; new = desk.new.value })
        (record { code = result; kind = kind.new; value = value.new }) }
{
    asked(alloc, desk, client, Call::Back, kind, value)
}

/// Keeps for good, at the commit, what was written to a handle's file.
#[tactic(auto, using(crate::proofs::Placing::said_from))]
#[unsafe(no_mangle)]
pub extern "C" fn xc_sync(
    alloc: Global,
    desk: &mut DeskHandle,
    client: u32,
    handle: u16,
    kind: &mut u32,
    value: &mut u64,
) -> i32
    ensures { IsSaid client (call.XSync handle None) (record { old = desk.old.value; new = desk.new.value })
        (record { code = result; kind = kind.new; value = value.new }) }
{
    let Some(slot) = no_slot(alloc, desk) else {
        return CLOSED;
    };
    asked(
        alloc,
        desk,
        client,
        Call::XSync { h: handle, slot },
        kind,
        value,
    )
}

/// Shuts a handle's pipe or pair, at the commit.
#[tactic(auto, using(crate::proofs::Placing::said_from))]
#[unsafe(no_mangle)]
pub extern "C" fn xc_shutdown(
    alloc: Global,
    desk: &mut DeskHandle,
    client: u32,
    handle: u16,
    kind: &mut u32,
    value: &mut u64,
) -> i32
    ensures { IsSaid client (call.XShutdown handle None) (record { old = desk.old.value; new = desk.new.value })
        (record { code = result; kind = kind.new; value = value.new }) }
{
    let Some(slot) = no_slot(alloc, desk) else {
        return CLOSED;
    };
    asked(
        alloc,
        desk,
        client,
        Call::XShutdown { h: handle, slot },
        kind,
        value,
    )
}

/// Writes over a file's bytes at the handle's position, 1,024 bytes at most.
#[unsafe(no_mangle)]
pub extern "C" fn xc_overwrite(
    alloc: Global,
    desk: &mut DeskHandle,
    client: u32,
    handle: u16,
    bytes: &[u8],
    kind: &mut u32,
    value: &mut u64,
) -> i32
    ensures { IsSaidWith client (call.XWriteOvr handle bytes.now) (record { old = desk.old.value; new = desk.new.value })
        (record { code = result; kind = kind.new; value = value.new }) }
{
    let Ok(bytes) = Chunk::new(alloc, bytes) else {
        return NO_MEMORY;
    };
    asked(
        alloc,
        desk,
        client,
        Call::XWriteOvr { h: handle, bytes },
        kind,
        value,
    )
}

/// Writes after a file's bytes, 1,024 bytes at most.
#[unsafe(no_mangle)]
pub extern "C" fn xc_append(
    alloc: Global,
    desk: &mut DeskHandle,
    client: u32,
    handle: u16,
    bytes: &[u8],
    kind: &mut u32,
    value: &mut u64,
) -> i32
    ensures { IsSaidWith client (call.XWriteSeq handle bytes.now) (record { old = desk.old.value; new = desk.new.value })
        (record { code = result; kind = kind.new; value = value.new }) }
{
    let Ok(bytes) = Chunk::new(alloc, bytes) else {
        return NO_MEMORY;
    };
    asked(
        alloc,
        desk,
        client,
        Call::XWriteSeq { h: handle, bytes },
        kind,
        value,
    )
}

/// Puts bytes after those of a pipe, at the commit.
#[tactic(auto, using(crate::proofs::Placing::said_from))]
#[unsafe(no_mangle)]
pub extern "C" fn xc_write_pipe(
    alloc: Global,
    desk: &mut DeskHandle,
    client: u32,
    handle: u16,
    bytes: &[u8],
    kind: &mut u32,
    value: &mut u64,
) -> i32
    ensures { IsSaidWith client (call.XWritePipe handle bytes.now None) (record { old = desk.old.value; new = desk.new.value })
        (record { code = result; kind = kind.new; value = value.new }) }
{
    let Some(slot) = no_slot(alloc, desk) else {
        return CLOSED;
    };
    let Ok(bytes) = Chunk::new(alloc, bytes) else {
        return NO_MEMORY;
    };
    asked(
        alloc,
        desk,
        client,
        Call::XWritePipe {
            h: handle,
            bytes,
            slot,
        },
        kind,
        value,
    )
}

/// Sends bytes as one message from a side of a pair, at the commit.
#[tactic(auto, using(crate::proofs::Placing::said_from))]
#[unsafe(no_mangle)]
pub extern "C" fn xc_send(
    alloc: Global,
    desk: &mut DeskHandle,
    client: u32,
    handle: u16,
    bytes: &[u8],
    kind: &mut u32,
    value: &mut u64,
) -> i32
    ensures { IsSaidWith client (call.XSendmsg handle bytes.now None) (record { old = desk.old.value; new = desk.new.value })
        (record { code = result; kind = kind.new; value = value.new }) }
{
    let Some(slot) = no_slot(alloc, desk) else {
        return CLOSED;
    };
    let Ok(bytes) = Chunk::new(alloc, bytes) else {
        return NO_MEMORY;
    };
    asked(
        alloc,
        desk,
        client,
        Call::XSendmsg {
            h: handle,
            bytes,
            slot,
        },
        kind,
        value,
    )
}

/// Opens the file of a name.
#[tactic(auto, using(crate::proofs::Placing::named_call, crate::proofs::Placing::unplaced))]
#[unsafe(no_mangle)]
pub extern "C" fn xc_open_file(
    alloc: Global,
    desk: &mut DeskHandle,
    client: u32,
    name: &[u8],
    kind: &mut u32,
    value: &mut u64,
) -> i32
    ensures { IsSaidOf (is_name name.now) client (call.XOpen name.now) (record { old = desk.old.value; new = desk.new.value })
        (record { code = result; kind = kind.new; value = value.new }) }
{
    let name = match at_name(alloc, desk, client, name) {
        Ok(name) => name,
        Err(code) => return code,
    };
    asked(alloc, desk, client, Call::XOpen { name }, kind, value)
}

/// Makes an empty file of a name, and opens it.
#[tactic(auto, using(crate::proofs::Placing::named_call, crate::proofs::Placing::unplaced))]
#[unsafe(no_mangle)]
pub extern "C" fn xc_create(
    alloc: Global,
    desk: &mut DeskHandle,
    client: u32,
    name: &[u8],
    kind: &mut u32,
    value: &mut u64,
) -> i32
    ensures { IsSaidOf (is_name name.now) client (call.XCreate name.now) (record { old = desk.old.value; new = desk.new.value })
        (record { code = result; kind = kind.new; value = value.new }) }
{
    let name = match at_name(alloc, desk, client, name) {
        Ok(name) => name,
        Err(code) => return code,
    };
    asked(alloc, desk, client, Call::XCreate { name }, kind, value)
}

/// Takes a file's name away, at the commit.
#[tactic(auto, using(crate::proofs::Placing::named_call_from, crate::proofs::Placing::unplaced_from))]
#[unsafe(no_mangle)]
pub extern "C" fn xc_unlink(
    alloc: Global,
    desk: &mut DeskHandle,
    client: u32,
    name: &[u8],
    kind: &mut u32,
    value: &mut u64,
) -> i32
    ensures { IsSaidOf (is_name name.now) client (call.XUnlink name.now None) (record { old = desk.old.value; new = desk.new.value })
        (record { code = result; kind = kind.new; value = value.new }) }
{
    let Some(slot) = no_slot(alloc, desk) else {
        return CLOSED;
    };
    let name = match at_name(alloc, desk, client, name) {
        Ok(name) => name,
        Err(code) => return code,
    };
    asked(
        alloc,
        desk,
        client,
        Call::XUnlink { name, slot },
        kind,
        value,
    )
}

/// Gives the file of a name another name, which no file has.
#[tactic(auto, using(crate::proofs::Placing::named_call, crate::proofs::Placing::unplaced))]
#[unsafe(no_mangle)]
pub extern "C" fn xc_rename(
    alloc: Global,
    desk: &mut DeskHandle,
    client: u32,
    from: &[u8],
    to: &[u8],
    kind: &mut u32,
    value: &mut u64,
) -> i32
    ensures { IsSaidOf (is_name from.now && is_name to.now) client (call.XRename from.now to.now)
        (record { old = desk.old.value; new = desk.new.value }) (record { code = result; kind = kind.new; value = value.new }) }
{
    let (from, to) = match at_names(alloc, desk, client, from, to) {
        Ok(both) => both,
        Err(code) => return code,
    };
    asked(alloc, desk, client, Call::XRename { from, to }, kind, value)
}

/// Reads as many bytes as there is room for, from the position of a file's handle; the value says how many came.
#[unsafe(no_mangle)]
pub extern "C" fn xc_read(
    alloc: Global,
    desk: &mut DeskHandle,
    client: u32,
    handle: u16,
    into: &mut [u8],
    kind: &mut u32,
    value: &mut u64,
) -> i32
    ensures said { IsSaid client (call.XRead handle (length into.old)) (record { old = desk.old.value; new = desk.new.value })
        (record { code = result; kind = kind.new; value = value.new }) }
    ensures bytes { result ≡ pos 0
        → take (length (got_of client desk.new.value)) into.new ≡ take (length into.new) (got_of client desk.new.value) }
    ensures other { result ≢ pos 0 → into.new ≡ into.old }
{
    let read = Call::XRead {
        h: handle,
        n: into.len() as u64,
    };
    let code = asked(alloc, desk, client, read, kind, value);
    put_bytes(alloc, desk, client, code, into)
}

/// Takes as many bytes as there is room for from the front of a pipe; the value says how many came.
#[unsafe(no_mangle)]
pub extern "C" fn xc_read_pipe(
    alloc: Global,
    desk: &mut DeskHandle,
    client: u32,
    handle: u16,
    into: &mut [u8],
    kind: &mut u32,
    value: &mut u64,
) -> i32
    ensures said { IsSaid client (call.XReadPipe handle (length into.old)) (record { old = desk.old.value; new = desk.new.value })
        (record { code = result; kind = kind.new; value = value.new }) }
    ensures bytes { result ≡ pos 0
        → take (length (got_of client desk.new.value)) into.new ≡ take (length into.new) (got_of client desk.new.value) }
    ensures other { result ≢ pos 0 → into.new ≡ into.old }
{
    let read = Call::XReadPipe {
        h: handle,
        n: into.len() as u64,
    };
    let code = asked(alloc, desk, client, read, kind, value);
    put_bytes(alloc, desk, client, code, into)
}

/// Takes the first message for a side of a pair; the value says how many bytes it has. There has to be room for 1,024.
#[unsafe(no_mangle)]
pub extern "C" fn xc_receive(
    alloc: Global,
    desk: &mut DeskHandle,
    client: u32,
    handle: u16,
    into: &mut [u8],
    kind: &mut u32,
    value: &mut u64,
) -> i32
    ensures said { IsSaidInto (nat_le 1024 (length into.old)) client (call.XRecvmsg handle)
        (record { old = desk.old.value; new = desk.new.value }) (record { code = result; kind = kind.new; value = value.new }) }
    ensures bytes { result ≡ pos 0
        → take (length (got_of client desk.new.value)) into.new ≡ take (length into.new) (got_of client desk.new.value) }
    ensures other { result ≢ pos 0 → into.new ≡ into.old }
{
    if (into.len() as u64) < MOST_CALL_BYTES {
        return TOO_SMALL;
    }
    let code = asked(
        alloc,
        desk,
        client,
        Call::XRecvmsg { h: handle },
        kind,
        value,
    );
    put_bytes(alloc, desk, client, code, into)
}

/// Makes a pair. The value is the handle of its side 0, and `other` that of its side 1.
#[unsafe(no_mangle)]
pub extern "C" fn xc_pair(
    alloc: Global,
    desk: &mut DeskHandle,
    client: u32,
    kind: &mut u32,
    value: &mut u64,
    other: &mut u64,
) -> i32
    ensures said { IsSaid client call.XPair (record { old = desk.old.value; new = desk.new.value })
        (record { code = result; kind = kind.new; value = value.new }) }
    ensures other { other.new ≡ other_at client desk.new.value }
{
    let code = asked(alloc, desk, client, Call::XPair, kind, value);
    *other = other_side(alloc, desk, client);
    code
}
