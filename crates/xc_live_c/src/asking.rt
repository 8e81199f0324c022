ghost use Rattle.std.specs.Prelude.{◌≡◌, ◌≢◌, ◌&&◌, pos, None, IfOk, IfErr, length, take};
ghost use Rattle.std.specs.Option.{MatchOption, option_copied};
ghost use Rattle.xc_data.specs.Spelling.{is_name};
ghost use Rattle.xc_live_c.specs.Told.{IsNotPlacedAt, IsSaid, KeepsHandle, MayBeNamed, got_in, got_of, other_at};

use crate::codes::{CLOSED, OK, other_of};
use crate::handle::DeskHandle;
use std::alloc::Global;
use xc_data::{Call, Reply, SharedName, SlotName};

// Makes a call of a client, and says what it replied.
pub(crate) fn asked(
    alloc: Global,
    desk: &mut DeskHandle,
    client: u32,
    call: Call,
    kind: &mut u32,
    value: &mut u64,
) -> i32
    ensures { IsSaid client call (record { old = desk.old.value; new = desk.new.value })
        (record { code = result; kind = kind.new; value = value.new }) }
{
    let Some(mut open) = desk.take(alloc) else {
        return CLOSED;
    };
    let code = open.call(client, call, kind, value);
    desk.put(alloc, open);
    code
}

// A name's place, for a client that has begun, or else the code that says why there is none.
pub(crate) fn at_name(
    alloc: Global,
    desk: &mut DeskHandle,
    client: u32,
    name: &[u8],
) -> Result<SharedName, i32>
    ensures ok { IfOk result (λ shared. (shared ≡ name.now) × MayBeNamed (is_name name.now) client desk.old.value) }
    ensures err { IfErr result (λ code. IsNotPlacedAt (is_name name.now) client desk.old.value code) }
    ensures same { KeepsHandle desk.old.value desk.new.value }
{
    let Some(mut open) = desk.take(alloc) else {
        return Err(CLOSED);
    };
    let placed = open.place(alloc, client, name);
    desk.put(alloc, open);
    placed
}

// The places of two names, for a client that has begun, or else the code that says why there are none.
pub(crate) fn at_names(
    alloc: Global,
    desk: &mut DeskHandle,
    client: u32,
    one: &[u8],
    other: &[u8],
) -> Result<(SharedName, SharedName), i32>
    ensures ok { IfOk result (λ both. (both.0 ≡ one.now) × (both.1 ≡ other.now)
        × MayBeNamed (is_name one.now && is_name other.now) client desk.old.value) }
    ensures err { IfErr result (λ code. IsNotPlacedAt (is_name one.now && is_name other.now) client desk.old.value code) }
    ensures same { KeepsHandle desk.old.value desk.new.value }
{
    let Some(mut open) = desk.take(alloc) else {
        return Err(CLOSED);
    };
    let placed = open.place_two(alloc, client, one, other);
    desk.put(alloc, open);
    placed
}

// The slot of a late call, where the desk is open.
pub(crate) fn no_slot(alloc: Global, desk: &mut DeskHandle) -> Option<SlotName>
    ensures slot { MatchOption result (desk.old.value ≡ None) (λ slot. slot ≡ None) }
    ensures same { desk.new.value ≡ desk.old.value }
{
    let Some(open) = desk.take(alloc) else {
        return None;
    };
    let slot = open.no_slot();
    desk.put(alloc, open);
    Some(slot)
}

// Copies a front of the bytes that a reply has, if it has any.
fn put_got(reply: Option<&Reply>, into: &mut [u8])
    ensures { take (length (got_in (option_copied reply.entry))) into.new ≡ take (length into.new) (got_in (option_copied reply.entry)) }
{
    let Some(Reply::Got(bytes)) = reply else {
        return;
    };
    let count = bytes.len().min(into.len());
    into[..count].copy_from_slice(&bytes.as_slice()[..count]);
}

// Puts the bytes that the last call of a client got in front of `into`, if its code says that it replied.
pub(crate) fn put_bytes(
    alloc: Global,
    desk: &mut DeskHandle,
    client: u32,
    code: i32,
    into: &mut [u8],
) -> i32
    ensures code { result ≡ code }
    ensures bytes { code ≡ pos 0
        → take (length (got_of client desk.old.value)) into.new ≡ take (length into.new) (got_of client desk.old.value) }
    ensures other { code ≢ pos 0 → into.new ≡ into.old }
    ensures same { desk.new.value ≡ desk.old.value }
{
    if code != OK {
        return code;
    }
    if let Some(open) = desk.take(alloc) {
        put_got(open.reply(client), into);
        desk.put(alloc, open);
    }
    code
}

// The handle of the other side of the pair that the last call of a client made; 0 where it made none.
pub(crate) fn other_side(alloc: Global, desk: &mut DeskHandle, client: u32) -> u64
    ensures other { result ≡ other_at client desk.old.value }
    ensures same { desk.new.value ≡ desk.old.value }
{
    let Some(open) = desk.take(alloc) else {
        return 0;
    };
    let other = match open.reply(client) {
        Some(reply) => other_of(reply),
        None => 0,
    };
    desk.put(alloc, open);
    other
}
