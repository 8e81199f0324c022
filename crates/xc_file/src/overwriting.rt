ghost use Rattle.std.specs.Prelude.{◌≡◌, ◌<◌, ◌≤◌, ◌+◌, ℕ, ◌++◌, ◌∷◌, [], ◌^◌, ◌==◌, true};
ghost use Rattle.std.specs.Prelude.{false, length, take, drop, cond, IfOk, IfSome, MatchOption, OnErr, IsTrue, if◌then◌else◌};
ghost use Rattle.xc_world.specs.After.{bytes_in};
ghost use Rattle.xc_data.specs.Calls.{is_late};
ghost use Rattle.xc_data.specs.Counts.{CountsFault};
ghost use Rattle.xc_data.specs.Private.{place_of};
ghost use Rattle.xc_data.specs.declared.call.Call.TheVariants.{XWriteOvr};
ghost use Rattle.xc_data.specs.declared.private.Place.TheVariants.{File};
ghost use Rattle.xc_data.specs.declared.script.HostCallKind.TheVariants.{WriteAt};
ghost use Rattle.xc_data.specs.declared.undo.Undo.TheVariants.{Overwrite};
ghost use Rattle.xc_world.specs.Trail.{done_of};
ghost use Rattle.xc_host.specs.Cause.{is_fault};
ghost use Rattle.xc_host.specs.Contents.{file_in, wrote_front};
ghost use Rattle.xc_host.specs.Uses.{Uses, MovesBy};
ghost use Rattle.xc_calls.specs.Calls.{IsHostCall, IsPassedReply, PassedBy, replies_fault};
ghost use Rattle.xc_file.specs.Checks.{IsOpenAt, IsOpenIn};
ghost use Rattle.xc_file.specs.Passing.{IsFileThere, LeavesOverwrite, LooksAtHost};
ghost use Rattle.xc_calls.specs.Passing.{Passes};
ghost use Rattle.xc_file.specs.Writing.{FitsInFile, LooksFor, Overwrote};

use crate::checks::{OpenFile, open_file};
use crate::moving::move_on;
use crate::reading::read_whole;
use crate::writing::{Written, write_whole};
use std::alloc::Global;
use xc_compensate::Stack;
use xc_data::{Chunk, NoMemory, Num, Place, Private, Reply, Undo};
use xc_host::{Host, HostErr};

// The n bytes from a place on, where there are n.
fn bytes_under<H: Host>(
    alloc: Global,
    host: &mut H,
    file: Num,
    at: u32,
    n: u32,
) -> Result<Option<Vec<u8>>, HostErr>
    requires there { IsFileThere H.model host.old file }
    ensures size { IfOk result (λ found. IfSome found (λ before. (length before.items ≡ n) × (at + n < 2 ^ 32))) }
    ensures value { IsTrue H.model.tells → IfOk result (λ found. MatchOption found
        (length (file_in (H.model.contents host.old) file) < at + n)
        (λ before. (before.items ≡ take n (drop at (file_in (H.model.contents host.old) file)))
        × (at + n ≤ length (file_in (H.model.contents host.old) file)))) }
    ensures uses { Uses H.model (record { old = host.old; new = host.new }) (LooksFor n result) }
    ensures looks { LooksAtHost H.model (record { old = host.old; new = host.new }) (is_fault result) }
{
    let Ok(len) = host.len(file) else {
        return Err(HostErr::Fault);
    };
    if at as u64 + n as u64 > len as u64 {
        return Ok(None);
    }
    let before = read_whole(alloc, host, file, at, n)?;
    if before.len() < n as usize {
        return Ok(None);
    }
    Ok(Some(before))
}

// Writes over bytes that are there. The record of it is there before the write.
fn write_recorded<H: Host>(
    host: &mut H,
    undo: &mut Stack,
    file: Num,
    at: u32,
    before: Vec<u8>,
    bytes: &Chunk,
) -> Result<Written, NoMemory>
    requires some { 0 < length bytes.now }
    requires room { at + length bytes.now < 2 ^ 32 }
    requires size { length before.items ≡ length bytes.now }
    requires there { IsFileThere H.model host.old file }
    requires inside { IsTrue H.model.tells → FitsInFile (H.model.contents host.old) file at bytes.now }
    requires none { undo.old.ended ≡ [] }
    ensures whole { IfOk result (λ written. written.fault ≡ false → written.done ≡ length bytes.now) }
    ensures short { IfOk result (λ written. written.fault ≡ true → written.done < length bytes.now) }
    ensures uses { IfOk result (λ written. Uses H.model (record { old = host.old; new = host.new })
        (MovesBy WriteAt written.done (cond written.fault 1 0))) }
    ensures contents { IsTrue H.model.tells
        → IfOk result (λ written. H.model.contents host.new
        ≡ wrote_front (H.model.contents host.old) file at (take written.done bytes.now)) }
    ensures records { IfOk result (λ written. undo.new ≡ record {
      pending = undo.old.pending ++ (if written.done == 0 then [] else Overwrite file at before.items bytes.now written.done ∷ []);
      ended = [];
    }) }
    ensures err_undo { OnErr result (undo.new ≡ undo.old) }
    ensures err_host { OnErr result (host.new ≡ host.old) }
    ensures cause { IfOk result (λ written. CountsFault written.fault (H.model.fault_count host.old) (H.model.fault_count host.new)) }
{
    let before = Chunk::from_vec(before)?;
    let after = bytes.share()?;
    let n = bytes.len() as u32;
    let record = Undo::Overwrite {
        file,
        at,
        before,
        after,
        n,
    };
    undo.push(record)?;
    let written = write_whole(host, file, at, bytes.as_slice());
    if written.fault {
        undo.trim(written.done);
    }
    Ok(written)
}

// Writes bytes over the next ones, and replies that it is done, a fault or a place past the end.
fn overwrite<H: Host>(
    alloc: Global,
    host: &mut H,
    undo: &mut Stack,
    file: OpenFile,
    bytes: &Chunk,
) -> Result<Reply, NoMemory>
    requires some { 0 < length bytes.now }
    requires most { length bytes.now ≤ 1024 }
    requires there { IsFileThere H.model host.old file.num }
    requires none { undo.old.ended ≡ [] }
    ensures room { IfOk result (λ reply. file.at + done_of (length bytes.now) reply < 2 ^ 32) }
    ensures told { IsTrue H.model.tells
        → IfOk result (Overwrote (record { old = H.model.contents host.old; new = H.model.contents host.new }) file.num file.at
        bytes.now) }
    ensures uses { Uses H.model (record { old = host.old; new = host.new }) (PassedBy (XWriteOvr file.h bytes.now) result) }
    ensures reply { IfOk result (IsPassedReply (XWriteOvr file.h bytes.now)) }
    ensures leaves { LeavesOverwrite H.model file bytes.now (record {
      old = record { host = host.old; undo = undo.old };
      new = record { host = host.new; undo = undo.new };
    }) result }
    ensures cause { CountsFault (replies_fault result) (H.model.fault_count host.old) (H.model.fault_count host.new) }
    ensures now { IfOk result (λ reply. is_late reply ≡ false) }
{
    let OpenFile { num, at, .. } = file;
    let before = match bytes_under(alloc, host, num, at, bytes.len() as u32) {
        Ok(Some(before)) => before,
        Ok(None) => return Ok(Reply::PastEnd),
        Err(HostErr::Fault) => return Ok(Reply::Fault(0)),
        Err(HostErr::NoMemory) => return Err(NoMemory),
    };
    let written = write_recorded(host, undo, num, at, before, bytes)?;
    if written.fault {
        return Ok(Reply::Fault(written.done));
    }
    Ok(Reply::Done)
}

// How many of the bytes an overwrite with this reply did.
fn done_of(bytes: &Chunk, reply: &Reply) -> u32
    requires { length bytes.now ≤ 1024 }
    ensures { result ≡ done_of (length bytes.now) reply.now }
{
    match reply {
        Reply::Done => bytes.len() as u32,
        Reply::Fault(done) => *done,
        // A write with any other reply, also with one yet to come, was refused before the host did a byte.
        _ => 0,
    }
}

// Writes over the next bytes of an open file that the checks let pass.
fn write_next<H: Host>(
    alloc: Global,
    host: &mut H,
    me: &mut Private,
    undo: &mut Stack,
    file: OpenFile,
    bytes: &Chunk,
) -> Result<Reply, NoMemory>
    requires file { IsOpenAt me.old file }
    requires few { (length bytes.now ≤ 1024) × (me.old.stored + length bytes.now ≤ 16384) }
    requires there { IsTrue H.model.tells → IsOpenIn (H.model.contents host.old) (File file.num file.at) }
    requires none { undo.old.ended ≡ [] }
    ensures passes { (number : ℕ) → Passes H.model (XWriteOvr file.h bytes.now) (record {
      old = record { host = host.old; number = number; me = me.old; undo = undo.old };
      new = record { host = host.new; number = number; me = me.new; undo = undo.new };
    }) result }
    ensures bytes { IfOk result (λ reply. bytes_in reply ≡ 0) }
    ensures leaves { LeavesOverwrite H.model file bytes.now (record {
      old = record { host = host.old; undo = undo.old };
      new = record { host = host.new; undo = undo.new };
    }) result }
    ensures stored { me.new.stored ≤ 16384 }
    ensures made { me.new.made ≡ me.old.made }
    ensures now { IfOk result (λ reply. is_late reply ≡ false) }
{
    if bytes.is_empty() {
        return Ok(Reply::Done);
    }
    let reply = overwrite(alloc, host, undo, file, bytes)?;
    move_on(me, file, done_of(bytes, &reply));
    me.stored += bytes.len() as u32;
    Ok(reply)
}

/// Writes over the next bytes of an open file. Its record is pushed before the host's write, with the
/// old bytes.
pub fn x_write_ovr<H: Host>(
    alloc: Global,
    host: &mut H,
    me: &mut Private,
    undo: &mut Stack,
    h: u16,
    bytes: &Chunk,
) -> Result<Reply, NoMemory>
    requires stored { me.old.stored ≤ 16384 }
    requires open { IsTrue H.model.tells → IsOpenIn (H.model.contents host.old) (place_of me.old.places h) }
    requires none { undo.old.ended ≡ [] }
    ensures call { (number : ℕ) → IsHostCall H.model (XWriteOvr h bytes.now)
        (record { host = host.old; number = number; me = me.old; undo = undo.old })
        (record { host = host.new; number = number; me = me.new; undo = undo.new }) result }
    ensures stored { me.new.stored ≤ 16384 }
    ensures made { me.new.made ≡ me.old.made }
    ensures now { IfOk result (λ reply. is_late reply ≡ false) }
{
    let file = match open_file(me, h, bytes.len() as u64) {
        Ok(file) => file,
        Err(reply) => return Ok(reply),
    };
    write_next(alloc, host, me, undo, file, bytes)
}
