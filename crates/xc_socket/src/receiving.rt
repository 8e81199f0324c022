ghost use Rattle.std.specs.Prelude.{None, ◌≡◌, ◌≤◌, ◌<◌, ◌+◌, ℕ, true, false, IfOk, OnErr, IsTrue};
ghost use Rattle.xc_data.specs.Calls.{is_late};
ghost use Rattle.xc_data.specs.Counts.{CountsFault};
ghost use Rattle.xc_data.specs.Faults.{is_fault_reply};
ghost use Rattle.xc_data.specs.Private.{IsSided, place_of};
ghost use Rattle.xc_data.specs.declared.call.Call.TheVariants.{XRecvmsg};
ghost use Rattle.xc_data.specs.declared.private.Place.TheVariants.{Pair};
ghost use Rattle.xc_compensate.specs.Records.{Records};
ghost use Rattle.xc_calls.specs.Calls.{IsHostCall, replies_fault};
ghost use Rattle.xc_calls.specs.Passing.{Passes};
ghost use Rattle.xc_host.specs.Cause.{is_fault};
ghost use Rattle.xc_host.specs.Fronted.{before, fronted};
ghost use Rattle.xc_host.specs.Kept.{KeepsData, with_kept};
ghost use Rattle.xc_host.specs.Pairs.{IsMessage, has_pair};
ghost use Rattle.xc_host.specs.Uses.{Uses};
ghost use Rattle.xc_buffers.specs.Items.{AreKept};
ghost use Rattle.xc_world.specs.Act.Step.{storing_reply};
ghost use Rattle.xc_world.specs.After.{bytes_in};
ghost use Rattle.xc_world.specs.Checks.{refusal_of};
ghost use Rattle.xc_calls.specs.Taking.{Notes, HasTaken, ReceivesKeptOf};
ghost use Rattle.xc_socket.specs.Checks.{IsPairIn};
ghost use Rattle.xc_socket.specs.Receiving.{AskedBy, ReceiptFinds, IsReceiptReply, NotesReceipt, Receives, ReceivesBy, TakesMessageKept};
ghost use Rattle.xc_calls.specs.Sides.{IsSame};

use crate::checks::{OpenSide, open_side};
use xc_buffers::{Kept, Taken};
use xc_data::{KeptItem, MOST_CALL_BYTES, NoMemory, Private, Reply};
use xc_host::{Host, HostErr, Took};

// Takes the first message that waits for a side: a kept one, or else the host's.
fn take_next<H: Host>(host: &mut H, kept: &mut Kept, at: OpenSide) -> Result<Took, HostErr>
    requires side { at.side < 2 }
    requires there { IsTrue H.model.tells → has_pair (H.model.contents host.old) at.pair ≡ true }
    ensures message { IfOk result IsMessage }
    ensures finds { IsTrue H.model.tells → IfOk result (ReceiptFinds at.pair at.side (record {
      old = record { contents = H.model.contents host.old; items = kept.old.items };
      new = record { contents = H.model.contents host.new; items = kept.new.items };
    })) }
    ensures err { IsTrue H.model.tells → OnErr result (IsSame (record {
      old = record { contents = H.model.contents host.old; items = kept.old.items };
      new = record { contents = H.model.contents host.new; items = kept.new.items };
    })) }
    ensures kept { TakesMessageKept at.pair at.side (record { old = kept.old.items; new = kept.new.items }) result }
    ensures were { AreKept kept.old.items }
    ensures room { kept.old.spare ≤ kept.new.spare }
    ensures uses { Uses H.model (record { old = host.old; new = host.new }) (AskedBy result) }
    ensures keeps { IsTrue H.model.tells → KeepsData (H.model.contents host.old) (H.model.contents host.new) }
    ensures in_order { AreKept kept.old.items → AreKept kept.new.items }
    ensures cause { CountsFault (is_fault result) (H.model.fault_count host.old) (H.model.fault_count host.new) }
{
    // By this each kept item is known to be fit.
    let _spare = kept.spare();
    match kept.take_msg(at.pair, at.side) {
        Some(message) => Ok(Took::Bytes(message)),
        None => host.recv(at.pair, at.side),
    }
}

// Receives the first message of a side that the checks let pass. Where memory runs out, it is given back.
fn receive_next<H: Host>(
    host: &mut H,
    kept: &mut Kept,
    taken: &mut Taken,
    at: OpenSide,
) -> Result<Reply, NoMemory>
    requires room { 1 ≤ kept.old.spare }
    requires side { at.side < 2 }
    requires there { IsTrue H.model.tells → has_pair (H.model.contents host.old) at.pair ≡ true }
    ensures receives { IsTrue H.model.tells → IfOk result (Receives at.pair at.side (record {
      old = record { contents = H.model.contents host.old; items = kept.old.items };
      new = record { contents = H.model.contents host.new; items = kept.new.items };
    })) }
    ensures err { IsTrue H.model.tells → OnErr result (IsSame (record {
      old = record { contents = H.model.contents host.old; items = kept.old.items };
      new = record { contents = H.model.contents host.new; items = kept.new.items };
    })) }
    ensures reply { IfOk result IsReceiptReply }
    ensures notes { NotesReceipt at.pair at.side (record { old = taken.old.items; new = taken.new.items }) result }
    ensures kept { ReceivesKeptOf at.pair at.side (record { old = kept.old.items; new = kept.new.items }) result }
    ensures room { IfOk result (λ reply. kept.old.spare ≤ kept.new.spare) }
    ensures spare { kept.old.spare ≤ kept.new.spare + 1 }
    ensures uses { Uses H.model (record { old = host.old; new = host.new }) (ReceivesBy result) }
    ensures keeps { IsTrue H.model.tells → KeepsData (H.model.contents host.old) (H.model.contents host.new) }
    ensures in_order { AreKept kept.old.items → AreKept kept.new.items }
    ensures cause { CountsFault (replies_fault result) (H.model.fault_count host.old) (H.model.fault_count host.new) }
{
    taken.reserve()?;
    let message = match take_next(host, kept, at) {
        Ok(Took::Bytes(message)) => message,
        Ok(Took::Empty) => return Ok(Reply::Empty),
        Ok(Took::End) => return Ok(Reply::End),
        Err(HostErr::Fault) => return Ok(Reply::Fault(0)),
        Err(HostErr::NoMemory) => return Err(NoMemory),
    };
    match message.share() {
        Ok(reply) => {
            taken.note(KeptItem::Message {
                pair: at.pair,
                side: at.side,
                bytes: message,
            });
            Ok(Reply::Got(reply))
        }
        Err(error) => {
            kept.give_msg(at.pair, at.side, message);
            Err(error)
        }
    }
}

// Counts what a reply brings as stored.
fn store(me: &mut Private, reply: &Reply)
    requires { me.old.stored + bytes_in reply.now ≤ 16384 }
    ensures me { me.new ≡ storing_reply reply.now me.old }
    ensures stored { me.new.stored ≤ 16384 }
    ensures made { me.new.made ≡ me.old.made }
{
    if let Reply::Got(bytes) = reply {
        me.stored += bytes.len() as u32;
    }
}

// Receives from an open side that the checks let pass, and stores what comes.
fn receive_open<H: Host>(
    host: &mut H,
    kept: &mut Kept,
    taken: &mut Taken,
    me: &mut Private,
    at: OpenSide,
) -> Result<Reply, NoMemory>
    requires few { me.old.stored + 1024 ≤ 16384 }
    requires room { 1 ≤ kept.old.spare }
    requires side { at.side < 2 }
    requires there { IsTrue H.model.tells → has_pair (H.model.contents host.old) at.pair ≡ true }
    ensures passes { (h number : ℕ) (undo : Records)
        → place_of me.old.places h ≡ Pair at.pair at.side → refusal_of (XRecvmsg h) me.old ≡ None
        → Passes (fronted H.model) (XRecvmsg h) (record {
          old = record { host = before host.old kept.old.items; number = number; me = me.old; undo = undo };
          new = record { host = before host.new kept.new.items; number = number; me = me.new; undo = undo };
        }) result }
    ensures err { IsTrue H.model.tells → OnErr result (IsSame (record {
      old = record { contents = H.model.contents host.old; items = kept.old.items };
      new = record { contents = H.model.contents host.new; items = kept.new.items };
    })) }
    ensures notes { NotesReceipt at.pair at.side (record { old = taken.old.items; new = taken.new.items }) result }
    ensures kept { ReceivesKeptOf at.pair at.side (record { old = kept.old.items; new = kept.new.items }) result }
    ensures room { IfOk result (λ reply. kept.old.spare ≤ kept.new.spare) }
    ensures spare { kept.old.spare ≤ kept.new.spare + 1 }
    ensures stored { me.new.stored ≤ 16384 }
    ensures made { me.new.made ≡ me.old.made }
    ensures now { IfOk result (λ reply. is_late reply ≡ false) }
    ensures keeps { IsTrue H.model.tells → KeepsData (H.model.contents host.old) (H.model.contents host.new) }
    ensures in_order { AreKept kept.old.items → AreKept kept.new.items }
{
    let reply = receive_next(host, kept, taken, at)?;
    store(me, &reply);
    Ok(reply)
}

/// Receives the first message that waits for a handle's side, a kept one first. What was received is noted. A message may have no
/// bytes, and is noted all the same. Where memory runs out after it, it is given back, in front of all others.
pub fn x_recvmsg<H: Host>(
    host: &mut H,
    kept: &mut Kept,
    taken: &mut Taken,
    me: &mut Private,
    h: u16,
) -> Result<Reply, NoMemory>
    requires stored { me.old.stored ≤ 16384 }
    requires room { 1 ≤ kept.old.spare }
    requires side { IsSided (place_of me.old.places h) }
    requires there { IsTrue H.model.tells → refusal_of (XRecvmsg h) me.old ≡ None
        → IsPairIn (H.model.contents host.old) (place_of me.old.places h) }
    ensures call { (number : ℕ) (undo : Records) → IsHostCall (fronted H.model) (XRecvmsg h)
        (record { host = before host.old kept.old.items; number = number; me = me.old; undo = undo })
        (record { host = before host.new kept.new.items; number = number; me = me.new; undo = undo }) result }
    ensures err { IsTrue H.model.tells → OnErr result
        (with_kept (H.model.contents host.new) kept.new.items ≡ with_kept (H.model.contents host.old) kept.old.items) }
    ensures notes { Notes (XRecvmsg h) me.old (record { old = taken.old.items; new = taken.new.items }) result }
    ensures kept { HasTaken (XRecvmsg h) me.old (record { old = kept.old.items; new = kept.new.items }) result }
    ensures room { IfOk result (λ reply. is_fault_reply reply ≡ false → kept.old.spare ≤ kept.new.spare) }
    ensures spare { kept.old.spare ≤ kept.new.spare + 2 }
    ensures stored { me.new.stored ≤ 16384 }
    ensures made { me.new.made ≡ me.old.made }
    ensures now { IfOk result (λ reply. is_late reply ≡ false) }
    ensures keeps { IsTrue H.model.tells → KeepsData (H.model.contents host.old) (H.model.contents host.new) }
    ensures in_order { AreKept kept.old.items → AreKept kept.new.items }
{
    match open_side(me, h, MOST_CALL_BYTES) {
        Ok(at) => receive_open(host, kept, taken, me, at),
        Err(reply) => Ok(reply),
    }
}
