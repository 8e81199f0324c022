ghost use Rattle.std.specs.Prelude.{None, ◌≡◌, ◌≤◌, ◌<◌, ◌+◌, ℕ, [], true, false, length, IfOk, OnOk, OnErr, IsTrue};
ghost use Rattle.xc_data.specs.Calls.{is_late};
ghost use Rattle.xc_data.specs.Counts.{CountsFault};
ghost use Rattle.xc_data.specs.Faults.{is_fault_reply};
ghost use Rattle.xc_data.specs.Private.{place_of};
ghost use Rattle.xc_data.specs.declared.call.Call.TheVariants.{XReadPipe};
ghost use Rattle.xc_data.specs.declared.private.Place.TheVariants.{Pipe};
ghost use Rattle.xc_compensate.specs.Records.{Records};
ghost use Rattle.xc_calls.specs.Calls.{IsHostCall, replies_fault};
ghost use Rattle.xc_calls.specs.Passing.{Passes};
ghost use Rattle.xc_host.specs.Cause.{is_fault};
ghost use Rattle.xc_host.specs.Fronted.{before, fronted};
ghost use Rattle.xc_host.specs.Kept.{KeepsData, with_kept};
ghost use Rattle.xc_host.specs.Pipes.{IsSomeOf, has_pipe};
ghost use Rattle.xc_host.specs.Uses.{Uses};
ghost use Rattle.xc_buffers.specs.Items.{AreKept, kept_bytes};
ghost use Rattle.xc_world.specs.Act.Step.{storing_reply};
ghost use Rattle.xc_world.specs.After.{bytes_in};
ghost use Rattle.xc_pipe.specs.Checks.{pipe_refusal_at};
ghost use Rattle.xc_pipe.specs.Reading.{ReadFinds, IsPipeIn, IsReadReply, GivesSameWorld, NotesRead, ReadsPipe, ReadsPipeBy, TakenBy};
ghost use Rattle.xc_pipe.specs.Reading.{TakesUntil, found_of};
ghost use Rattle.xc_calls.specs.Taking.{Notes, HasTaken, ReadsKeptOf};
ghost use Rattle.xc_pipe.specs.Taking.{TakesAfter, TakesKept};

use crate::checks::open_pipe;
use crate::holding::{join, take_kept};
use std::alloc::Global;
use xc_buffers::{Kept, Taken};
use xc_data::{Chunk, KeptItem, NoMemory, Num, Private, Reply};
use xc_host::{Host, HostErr, Took};

// What was taken, or where that is none, that there is none.
fn found(front: Chunk, none: Took) -> Took
    ensures { result ≡ found_of front none }
{
    if front.is_empty() {
        none
    } else {
        Took::Bytes(front)
    }
}

// Takes from a pipe of the host, after kept bytes, until n bytes are there or a take gives none. Where a take fails or memory
// runs out, all is given back.
fn take_rest<H: Host>(
    alloc: Global,
    host: &mut H,
    kept: &mut Kept,
    pipe: Num,
    n: u32,
    kept_front: Chunk,
) -> Result<Took, HostErr>
    requires few { (1 ≤ n) × (n ≤ 1024) }
    requires most { length kept_front ≤ n }
    requires left { length kept_front < n → kept_bytes pipe kept.old.items ≡ [] }
    requires room { 2 ≤ kept.old.spare }
    requires there { IsTrue H.model.tells → has_pipe (H.model.contents host.old) pipe ≡ true }
    ensures some { IfOk result (IsSomeOf n) }
    ensures finds { IsTrue H.model.tells → IfOk result (ReadFinds pipe n kept_front (record {
      old = record { contents = H.model.contents host.old; items = kept.old.items };
      new = record { contents = H.model.contents host.new; items = kept.new.items };
    })) }
    ensures err { IsTrue H.model.tells → OnErr result (GivesSameWorld pipe kept_front [] (record {
      old = record { contents = H.model.contents host.old; items = kept.old.items };
      new = record { contents = H.model.contents host.new; items = kept.new.items };
    })) }
    ensures kept { OnOk result (kept.new ≡ kept.old) }
    ensures short { OnErr result (length kept_front < n) }
    ensures after { TakesAfter pipe kept_front (record { old = kept.old.items; new = kept.new.items }) result }
    ensures spare { kept.old.spare ≤ kept.new.spare + 2 }
    ensures uses { Uses H.model (record { old = host.old; new = host.new }) (TakesUntil n (length kept_front) result) }
    ensures keeps { IsTrue H.model.tells → KeepsData (H.model.contents host.old) (H.model.contents host.new) }
    ensures in_order { AreKept kept.old.items → AreKept kept.new.items }
    ensures cause { CountsFault (is_fault result) (H.model.fault_count host.old) (H.model.fault_count host.new) }
{
    let mut front = kept_front;
    while (front.len() as u32) < n {
        match host.take(pipe, n - front.len() as u32) {
            Ok(Took::Bytes(more)) => match join(alloc, kept, pipe, front, more) {
                Ok(all) => front = all,
                Err(_) => return Err(HostErr::NoMemory),
            },
            Ok(Took::Empty) => return Ok(found(front, Took::Empty)),
            Ok(Took::End) => return Ok(found(front, Took::End)),
            Err(error) => {
                kept.give_back(pipe, front);
                return Err(error);
            }
        }
    }
    Ok(Took::Bytes(front))
}

// Takes at most n bytes from a pipe, the kept ones first. Where a take fails or memory runs out, all is given back.
fn take_all<H: Host>(
    alloc: Global,
    host: &mut H,
    kept: &mut Kept,
    pipe: Num,
    n: u32,
) -> Result<Took, HostErr>
    requires few { (1 ≤ n) × (n ≤ 1024) }
    requires room { 2 ≤ kept.old.spare }
    requires there { IsTrue H.model.tells → has_pipe (H.model.contents host.old) pipe ≡ true }
    ensures some { IfOk result (IsSomeOf n) }
    ensures finds { IsTrue H.model.tells → IfOk result (ReadFinds pipe n [] (record {
      old = record { contents = H.model.contents host.old; items = kept.old.items };
      new = record { contents = H.model.contents host.new; items = kept.new.items };
    })) }
    ensures err { IsTrue H.model.tells → OnErr result (GivesSameWorld pipe [] [] (record {
      old = record { contents = H.model.contents host.old; items = kept.old.items };
      new = record { contents = H.model.contents host.new; items = kept.new.items };
    })) }
    ensures kept { TakesKept pipe n (record { old = kept.old.items; new = kept.new.items }) result }
    ensures room { OnOk result (kept.old.spare ≤ kept.new.spare) }
    ensures spare { kept.old.spare ≤ kept.new.spare + 2 }
    ensures uses { Uses H.model (record { old = host.old; new = host.new }) (TakenBy n result) }
    ensures keeps { IsTrue H.model.tells → KeepsData (H.model.contents host.old) (H.model.contents host.new) }
    ensures in_order { AreKept kept.old.items → AreKept kept.new.items }
    ensures cause { CountsFault (is_fault result) (H.model.fault_count host.old) (H.model.fault_count host.new) }
{
    let front = match take_kept(alloc, kept, pipe, n) {
        Ok(front) => front,
        Err(_) => return Err(HostErr::NoMemory),
    };
    take_rest(alloc, host, kept, pipe, n, front)
}

// Reads the next n bytes of an open pipe that the checks let pass.
fn read_next<H: Host>(
    alloc: Global,
    host: &mut H,
    kept: &mut Kept,
    taken: &mut Taken,
    pipe: Num,
    n: u32,
) -> Result<Reply, NoMemory>
    requires few { (1 ≤ n) × (n ≤ 1024) }
    requires room { 2 ≤ kept.old.spare }
    requires there { IsTrue H.model.tells → has_pipe (H.model.contents host.old) pipe ≡ true }
    ensures reads { IsTrue H.model.tells → IfOk result (ReadsPipe pipe n (record {
      old = record { contents = H.model.contents host.old; items = kept.old.items };
      new = record { contents = H.model.contents host.new; items = kept.new.items };
    })) }
    ensures err { IsTrue H.model.tells → OnErr result (GivesSameWorld pipe [] [] (record {
      old = record { contents = H.model.contents host.old; items = kept.old.items };
      new = record { contents = H.model.contents host.new; items = kept.new.items };
    })) }
    ensures reply { IfOk result (IsReadReply n) }
    ensures notes { NotesRead pipe taken.old.items taken.new.items result }
    ensures kept { ReadsKeptOf pipe n (record { old = kept.old.items; new = kept.new.items }) result }
    ensures room { IfOk result (λ reply. is_fault_reply reply ≡ false → kept.old.spare ≤ kept.new.spare) }
    ensures spare { kept.old.spare ≤ kept.new.spare + 2 }
    ensures uses { Uses H.model (record { old = host.old; new = host.new }) (ReadsPipeBy n result) }
    ensures keeps { IsTrue H.model.tells → KeepsData (H.model.contents host.old) (H.model.contents host.new) }
    ensures in_order { AreKept kept.old.items → AreKept kept.new.items }
    ensures cause { CountsFault (replies_fault result) (H.model.fault_count host.old) (H.model.fault_count host.new) }
{
    taken.reserve()?;
    let bytes = match take_all(alloc, host, kept, pipe, n) {
        Ok(Took::Bytes(bytes)) => bytes,
        Ok(Took::Empty) => return Ok(Reply::Empty),
        Ok(Took::End) => return Ok(Reply::End),
        Err(HostErr::Fault) => return Ok(Reply::Fault(0)),
        Err(HostErr::NoMemory) => return Err(NoMemory),
    };
    match bytes.share() {
        Ok(reply) => {
            taken.note(KeptItem::Bytes { pipe, bytes });
            Ok(Reply::Got(reply))
        }
        Err(error) => {
            kept.give_back(pipe, bytes);
            Err(error)
        }
    }
}

// Counts what a reply brings as stored.
fn store(me: &mut Private, reply: &Reply)
    requires { me.old.stored + bytes_in reply.now ≤ 16384 }
    ensures me { me.new ≡ storing_reply reply.now me.old }
    ensures stored { me.new.stored ≤ 16384 }
    ensures made { me.new.made ≡ me.old.made }
{
    if let Reply::Got(bytes) = reply {
        me.stored += bytes.len() as u32;
    }
}

// Reads from an open pipe that the checks let pass, and stores what comes.
fn read_open<H: Host>(
    alloc: Global,
    host: &mut H,
    kept: &mut Kept,
    taken: &mut Taken,
    me: &mut Private,
    pipe: Num,
    n: u32,
) -> Result<Reply, NoMemory>
    requires few { (n ≤ 1024) × (me.old.stored + n ≤ 16384) }
    requires room { 2 ≤ kept.old.spare }
    requires there { IsTrue H.model.tells → has_pipe (H.model.contents host.old) pipe ≡ true }
    ensures passes { (h number : ℕ) (undo : Records)
        → place_of me.old.places h ≡ Pipe pipe → pipe_refusal_at me.old h n ≡ None
        → Passes (fronted H.model) (XReadPipe h n) (record {
          old = record { host = before host.old kept.old.items; number = number; me = me.old; undo = undo };
          new = record { host = before host.new kept.new.items; number = number; me = me.new; undo = undo };
        }) result }
    ensures err { IsTrue H.model.tells → OnErr result (GivesSameWorld pipe [] [] (record {
      old = record { contents = H.model.contents host.old; items = kept.old.items };
      new = record { contents = H.model.contents host.new; items = kept.new.items };
    })) }
    ensures notes { NotesRead pipe taken.old.items taken.new.items result }
    ensures kept { ReadsKeptOf pipe n (record { old = kept.old.items; new = kept.new.items }) result }
    ensures room { IfOk result (λ reply. is_fault_reply reply ≡ false → kept.old.spare ≤ kept.new.spare) }
    ensures spare { kept.old.spare ≤ kept.new.spare + 2 }
    ensures stored { me.new.stored ≤ 16384 }
    ensures made { me.new.made ≡ me.old.made }
    ensures now { IfOk result (λ reply. is_late reply ≡ false) }
    ensures keeps { IsTrue H.model.tells → KeepsData (H.model.contents host.old) (H.model.contents host.new) }
    ensures in_order { AreKept kept.old.items → AreKept kept.new.items }
{
    if n == 0 {
        return Ok(Reply::Got(Chunk::new(alloc, &[])?));
    }
    let reply = read_next(alloc, host, kept, taken, pipe, n)?;
    store(me, &reply);
    Ok(reply)
}

/// Reads the next bytes of an open pipe, the kept ones first: n, or all that are there where those are fewer. What was read is
/// noted. Where the host fails or memory runs out after some bytes, these are kept, in front of all others.
pub fn x_read_pipe<H: Host>(
    alloc: Global,
    host: &mut H,
    kept: &mut Kept,
    taken: &mut Taken,
    me: &mut Private,
    h: u16,
    n: u64,
) -> Result<Reply, NoMemory>
    requires stored { me.old.stored ≤ 16384 }
    requires room { 2 ≤ kept.old.spare }
    requires there { IsTrue H.model.tells → pipe_refusal_at me.old h n ≡ None
        → IsPipeIn (H.model.contents host.old) (place_of me.old.places h) }
    ensures call { (number : ℕ) (undo : Records) → IsHostCall (fronted H.model) (XReadPipe h n)
        (record { host = before host.old kept.old.items; number = number; me = me.old; undo = undo })
        (record { host = before host.new kept.new.items; number = number; me = me.new; undo = undo }) result }
    ensures err { IsTrue H.model.tells → OnErr result
        (with_kept (H.model.contents host.new) kept.new.items ≡ with_kept (H.model.contents host.old) kept.old.items) }
    ensures notes { Notes (XReadPipe h n) me.old (record { old = taken.old.items; new = taken.new.items }) result }
    ensures kept { HasTaken (XReadPipe h n) me.old (record { old = kept.old.items; new = kept.new.items }) result }
    ensures room { IfOk result (λ reply. is_fault_reply reply ≡ false → kept.old.spare ≤ kept.new.spare) }
    ensures spare { kept.old.spare ≤ kept.new.spare + 2 }
    ensures stored { me.new.stored ≤ 16384 }
    ensures made { me.new.made ≡ me.old.made }
    ensures now { IfOk result (λ reply. is_late reply ≡ false) }
    ensures keeps { IsTrue H.model.tells → KeepsData (H.model.contents host.old) (H.model.contents host.new) }
    ensures in_order { AreKept kept.old.items → AreKept kept.new.items }
{
    match open_pipe(me, h, n) {
        Ok(pipe) => read_open(alloc, host, kept, taken, me, pipe, n as u32),
        Err(reply) => Ok(reply),
    }
}
