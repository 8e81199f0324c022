ghost use Rattle.std.specs.Prelude.{◌≡◌, ◌<◌, ◌≤◌, ◌+◌, ℕ, ◌++◌, ◌∷◌, [], ◌^◌, false};
ghost use Rattle.std.specs.Prelude.{length, IfOk, IfSome, MatchOption, OnOk, OnErr, IsTrue, is_err};
ghost use Rattle.xc_data.specs.Calls.{is_late};
ghost use Rattle.xc_data.specs.Counts.{CountsFault};
ghost use Rattle.xc_data.specs.Private.{place_of};
ghost use Rattle.xc_data.specs.declared.call.Call.TheVariants.{XWriteSeq};
ghost use Rattle.xc_data.specs.declared.script.HostCallKind.TheVariants.{Len};
ghost use Rattle.xc_data.specs.declared.private.Place.TheVariants.{File};
ghost use Rattle.xc_world.specs.Trail.{done_of};
ghost use Rattle.xc_host.specs.Contents.{file_in};
ghost use Rattle.xc_host.specs.Model.{IsUsed};
ghost use Rattle.xc_host.specs.Uses.{Uses};
ghost use Rattle.xc_file.specs.Appending.{Appends, HasFileRoom, IsAppended, appended_record};
ghost use Rattle.xc_calls.specs.Calls.{IsHostCall, IsPassedReply, PassedBy, replies_fault};
ghost use Rattle.xc_world.specs.After.{IsAppendedAt, bytes_in};
ghost use Rattle.xc_file.specs.Checks.{IsOpenAt, IsOpenIn};
ghost use Rattle.xc_file.specs.Passing.{IsFileThere, LeavesAppend, LooksAtHost};
ghost use Rattle.xc_calls.specs.Passing.{Passes};
ghost use Rattle.xc_file.specs.Writing.{moved_on};

use crate::checks::{OpenFile, open_file};
use crate::moving::move_on;
use xc_compensate::Stack;
use xc_data::{Chunk, NoMemory, Num, Private, Reply, Undo};
use xc_host::{Fault, Host, HostErr};

/// How many bytes are appended, and what stopped the append there.
#[derive(Clone, Copy)]
struct Appended {
    done: u32,
    end: Result<(), HostErr>,
}

// The length of a file that has room for n bytes more.
fn end_of<H: Host>(host: &mut H, file: Num, n: u32) -> Result<Option<u32>, Fault>
    requires there { IsFileThere H.model host.old file }
    ensures room { IfOk result (λ found. IfSome found (λ from. from + n < 2 ^ 32)) }
    ensures fits { IsTrue H.model.tells → IfOk result (λ found. IfSome found (λ from. from + n ≤ 65536)) }
    ensures value { IsTrue H.model.tells → IfOk result (λ found. MatchOption found
        (65536 < length (file_in (H.model.contents host.old) file) + n)
        (λ from. from ≡ length (file_in (H.model.contents host.old) file))) }
    ensures used { IsUsed H.model (Len ∷ []) (record { old = host.old; new = host.new }) }
    ensures looks { LooksAtHost H.model (record { old = host.old; new = host.new }) (is_err result) }
{
    let len = host.len(file)?;
    if len as u64 + n as u64 > host.most_file_bytes() as u64 {
        return Ok(None);
    }
    Ok(Some(len))
}

// Appends until all is appended or an append fails.
fn append_whole<H: Host>(host: &mut H, file: Num, bytes: &[u8]) -> Appended
    requires few { length bytes.now < 2 ^ 32 }
    requires there { IsFileThere H.model host.old file }
    requires room { IsTrue H.model.tells → HasFileRoom (H.model.contents host.old) file bytes.now }
    ensures { IsAppended H.model file bytes.now (record { old = host.old; new = host.new }) result }
{
    let mut done: u32 = 0;
    while (done as usize) < bytes.len() {
        match host.append(file, &bytes[done as usize..]) {
            Ok(count) => done += count,
            Err(error) => {
                return Appended {
                    done,
                    end: Err(error),
                };
            }
        }
    }
    Appended { done, end: Ok(()) }
}

// Pushes the record of an append that does all the bytes.
fn push_append(undo: &mut Stack, file: Num, from: u32, bytes: &Chunk) -> Result<(), NoMemory>
    requires some { 0 < length bytes.now }
    requires room { from + length bytes.now < 2 ^ 32 }
    requires none { undo.old.ended ≡ [] }
    ensures ok { OnOk result (undo.new
        ≡ record { pending = undo.old.pending ++ appended_record file from bytes.now (length bytes.now); ended = [] }) }
    ensures err { OnErr result (undo.new ≡ undo.old) }
{
    let after = bytes.share()?;
    let n = bytes.len() as u32;
    undo.push(Undo::Append {
        file,
        from,
        after,
        n,
    })
}

// Appends to a file of `from` bytes. The record of it is there before.
fn append_recorded<H: Host>(
    host: &mut H,
    undo: &mut Stack,
    file: Num,
    from: u32,
    bytes: &Chunk,
) -> Appended
    requires some { 0 < length bytes.now }
    requires room { from + length bytes.now < 2 ^ 32 }
    requires fits { IsTrue H.model.tells → from + length bytes.now ≤ 65536 }
    requires there { IsFileThere H.model host.old file }
    requires end { IsTrue H.model.tells → from ≡ length (file_in (H.model.contents host.old) file) }
    requires none { undo.old.ended ≡ [] }
    ensures appended { IsAppended H.model file bytes.now (record { old = host.old; new = host.new }) result }
    ensures records { undo.new
        ≡ record { pending = undo.old.pending ++ appended_record file from bytes.now result.done; ended = [] } }
{
    if push_append(undo, file, from, bytes).is_err() {
        return Appended {
            done: 0,
            end: Err(HostErr::NoMemory),
        };
    }
    let appended = append_whole(host, file, bytes.as_slice());
    if appended.end.is_err() {
        undo.trim(appended.done);
    }
    appended
}

// Appends bytes, and moves the position after what was done.
fn append<H: Host>(
    host: &mut H,
    me: &mut Private,
    undo: &mut Stack,
    file: OpenFile,
    bytes: &Chunk,
) -> Result<Reply, NoMemory>
    requires some { 0 < length bytes.now }
    requires most { length bytes.now ≤ 1024 }
    requires file { IsOpenAt me.old file }
    requires there { IsFileThere H.model host.old file.num }
    requires none { undo.old.ended ≡ [] }
    ensures told { IsTrue H.model.tells
        → IfOk result (Appends (H.model.contents host.old) (H.model.contents host.new) file.num bytes.now) }
    ensures uses { Uses H.model (record { old = host.old; new = host.new }) (PassedBy (XWriteSeq file.h bytes.now) result) }
    ensures places { IfOk result (λ reply. IsAppendedAt me.old.places file.h (done_of (length bytes.now) reply) me.new.places) }
    ensures reply { IfOk result (IsPassedReply (XWriteSeq file.h bytes.now)) }
    ensures me { IsTrue H.model.tells → IfOk result (λ reply. me.new ≡ moved_on me.old file.h file.num
        (length (file_in (H.model.contents host.old) file.num)) (done_of (length bytes.now) reply)) }
    ensures same { (me.new.stored ≡ me.old.stored) × (me.new.made ≡ me.old.made) }
    ensures leaves { LeavesAppend H.model file bytes.now (record {
      old = record { host = host.old; undo = undo.old };
      new = record { host = host.new; undo = undo.new };
    }) result }
    ensures err { OnErr result (me.new ≡ me.old) }
    ensures cause { CountsFault (replies_fault result) (H.model.fault_count host.old) (H.model.fault_count host.new) }
    ensures now { IfOk result (λ reply. is_late reply ≡ false) }
{
    let from = match end_of(host, file.num, bytes.len() as u32) {
        Ok(Some(from)) => from,
        Ok(None) => return Ok(Reply::TooBig),
        Err(_) => return Ok(Reply::Fault(0)),
    };
    let appended = append_recorded(host, undo, file.num, from, bytes);
    let reply = match appended.end {
        Ok(()) => Reply::Done,
        Err(error) => match error {
            HostErr::Fault => Reply::Fault(appended.done),
            HostErr::NoMemory => return Err(NoMemory),
        },
    };
    move_on(me, OpenFile { at: from, ..file }, appended.done);
    Ok(reply)
}

// Appends bytes to an open file that the checks let pass.
fn append_next<H: Host>(
    host: &mut H,
    me: &mut Private,
    undo: &mut Stack,
    file: OpenFile,
    bytes: &Chunk,
) -> Result<Reply, NoMemory>
    requires file { IsOpenAt me.old file }
    requires few { (length bytes.now ≤ 1024) × (me.old.stored + length bytes.now ≤ 16384) }
    requires there { IsTrue H.model.tells → IsOpenIn (H.model.contents host.old) (File file.num file.at) }
    requires none { undo.old.ended ≡ [] }
    ensures passes { (number : ℕ) → Passes H.model (XWriteSeq file.h bytes.now) (record {
      old = record { host = host.old; number = number; me = me.old; undo = undo.old };
      new = record { host = host.new; number = number; me = me.new; undo = undo.new };
    }) result }
    ensures bytes { IfOk result (λ reply. bytes_in reply ≡ 0) }
    ensures leaves { LeavesAppend H.model file bytes.now (record {
      old = record { host = host.old; undo = undo.old };
      new = record { host = host.new; undo = undo.new };
    }) result }
    ensures stored { me.new.stored ≤ 16384 }
    ensures made { me.new.made ≡ me.old.made }
    ensures some { OnErr result (0 < length bytes.now) }
    ensures now { IfOk result (λ reply. is_late reply ≡ false) }
{
    if bytes.is_empty() {
        return Ok(Reply::Done);
    }
    let reply = append(host, me, undo, file, bytes)?;
    me.stored += bytes.len() as u32;
    Ok(reply)
}

/// Appends bytes to an open file, whose position is then its end. The record is pushed before the
/// host's append, and covers what was done; memory may run out after a front.
pub fn x_write_seq<H: Host>(
    host: &mut H,
    me: &mut Private,
    undo: &mut Stack,
    h: u16,
    bytes: &Chunk,
) -> Result<Reply, NoMemory>
    requires stored { me.old.stored ≤ 16384 }
    requires open { IsTrue H.model.tells → IsOpenIn (H.model.contents host.old) (place_of me.old.places h) }
    requires none { undo.old.ended ≡ [] }
    ensures call { (number : ℕ) → IsHostCall H.model (XWriteSeq h bytes.now)
        (record { host = host.old; number = number; me = me.old; undo = undo.old })
        (record { host = host.new; number = number; me = me.new; undo = undo.new }) result }
    ensures stored { me.new.stored ≤ 16384 }
    ensures made { me.new.made ≡ me.old.made }
    ensures now { IfOk result (λ reply. is_late reply ≡ false) }
{
    let file = match open_file(me, h, bytes.len() as u64) {
        Ok(file) => file,
        Err(reply) => return Ok(reply),
    };
    append_next(host, me, undo, file, bytes)
}
