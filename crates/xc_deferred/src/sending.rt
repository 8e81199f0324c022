ghost use Rattle.std.specs.Prelude.{◌≡◌, ◌<◌, ◌≤◌, ◌+◌, true, length, nat_le, IsTrue};
ghost use Rattle.xc_data.specs.declared.call.LateCall.TheVariants.{Send};
ghost use Rattle.xc_buffers.specs.Items.{AreKept, kept_messages};
ghost use Rattle.xc_host.specs.Fronted.{before, fronted};
ghost use Rattle.xc_host.specs.Kept.{KeepsData};
ghost use Rattle.xc_host.specs.Pairs.{has_pair};
ghost use Rattle.xc_world.specs.World.{other_side};
ghost use Rattle.xc_deferred.specs.Ended.{EndsAt};

use xc_buffers::Kept;
use xc_data::{Chunk, LateEnd, Num, Object};
use xc_host::{Host, HostErr};

// The most messages that wait for a side of a pair, with what is kept for it.
const MOST_WAITING: u32 = 8;

// The side that is not this one.
fn side_across(side: u8) -> u8
    ensures { result ≡ other_side side }
{
    if side == 0 { 1 } else { 0 }
}

// Whether no more messages may wait for a side, after what is kept for it and what the host holds.
fn is_full(kept: &Kept, pair: Num, side: u8, held: u32) -> bool
    ensures value { result ≡ nat_le 8 (length (kept_messages pair side kept.now.items) + held) }
    ensures kept { AreKept kept.now.items }
{
    let before = kept.held(&Object::Pair(pair), side);
    before.saturating_add(held) >= MOST_WAITING
}

/// Sends a message to the other side of a pair. What is kept for that side counts with what the host holds.
pub(crate) fn send<H: Host>(
    host: &mut H,
    kept: &Kept,
    pair: Num,
    side: u8,
    bytes: &Chunk,
) -> LateEnd
    requires there { IsTrue H.model.tells → has_pair (H.model.contents host.old) pair ≡ true }
    requires side { side < 2 }
    requires few { length bytes.now ≤ 1024 }
    ensures ends { EndsAt (fronted H.model) (Send pair side bytes.now) (record {
      old = before host.old kept.now.items;
      new = before host.new kept.now.items;
    }) result }
    ensures keeps { IsTrue H.model.tells → KeepsData (H.model.contents host.old) (H.model.contents host.new) }
{
    let receiver = side_across(side);
    let state = match host.pair_state(pair, receiver) {
        Ok(state) => state,
        Err(_) => return LateEnd::Fault(0),
    };
    if state.shut {
        return LateEnd::Shut;
    }
    if is_full(kept, pair, receiver, state.held) {
        return LateEnd::Full(0);
    }
    match host.send(pair, side, bytes.as_slice()) {
        Ok(_) => LateEnd::Done,
        Err(HostErr::Fault) => LateEnd::Fault(0),
        Err(HostErr::NoMemory) => LateEnd::NoMemory(0),
    }
}
