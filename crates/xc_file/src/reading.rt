ghost use Rattle.std.specs.Prelude.{◌≡◌, ◌<◌, ◌≤◌, ◌+◌, ◌^◌, ◌∷◌, ◌⊎◌, [], ℕ, false, length, take, drop, IfOk, OnErr, IsTrue};
ghost use Rattle.xc_data.specs.Calls.{is_late};
ghost use Rattle.xc_data.specs.Private.{place_of};
ghost use Rattle.xc_data.specs.declared.call.Call.TheVariants.{XRead};
ghost use Rattle.xc_data.specs.declared.call.Reply.TheVariants.{End, Fault};
ghost use Rattle.xc_data.specs.declared.script.HostCallKind.TheVariants.{ReadAt};
ghost use Rattle.xc_data.specs.declared.private.Place.TheVariants.{File};
ghost use Rattle.xc_host.specs.Cause.{is_fault};
ghost use Rattle.xc_host.specs.Contents.{file_in};
ghost use Rattle.xc_host.specs.Model.{IsUsed};
ghost use Rattle.xc_host.specs.Uses.{Uses, MovesBy};
ghost use Rattle.xc_compensate.specs.Records.{Records};
ghost use Rattle.xc_calls.specs.Calls.{IsHostCall, replies_fault};
ghost use Rattle.xc_file.specs.Checks.{IsOpenAt, IsOpenIn};
ghost use Rattle.xc_file.specs.Passing.{IsFileThere, LooksAtHost};
ghost use Rattle.xc_calls.specs.Passing.{Passes};
ghost use Rattle.xc_file.specs.Reading.{AppendsFront, ReadsBy};

use crate::checks::{OpenFile, open_file};
use std::alloc::Global;
use xc_data::{Chunk, NoMemory, Num, Place, Private, Reply};
use xc_host::{Host, HostErr};

// Appends what one read gives, and answers how many bytes that are.
fn read_more<H: Host>(
    host: &mut H,
    file: Num,
    at: u32,
    n: u32,
    bytes: &mut Vec<u8>,
) -> Result<u32, HostErr>
    requires there { IsFileThere H.model host.old file }
    ensures bound { IfOk result (λ more. (more ≤ n) × (length bytes.new.items ≡ length bytes.old.items + more)) }
    ensures value { IsTrue H.model.tells
        → IfOk result (λ more. AppendsFront (file_in (H.model.contents host.old) file) at n more
        (record { old = bytes.old.items; new = bytes.new.items })) }
    ensures used { IsUsed H.model (ReadAt ∷ []) (record { old = host.old; new = host.new }) }
    ensures looks { LooksAtHost H.model (record { old = host.old; new = host.new }) (is_fault result) }
{
    let piece = host.read_at(file, at, n)?;
    bytes.extend_from_slice(piece.as_slice())?;
    Ok(piece.len() as u32)
}

/// Reads until n bytes are there or a read gives none.
#[tactic(auto, using(crate::proofs::ReadFronts::front_more))]
pub(crate) fn read_whole<H: Host>(
    alloc: Global,
    host: &mut H,
    file: Num,
    at: u32,
    n: u32,
) -> Result<Vec<u8>, HostErr>
    requires room { at + n < 2 ^ 32 }
    requires there { IsFileThere H.model host.old file }
    ensures bound { IfOk result (λ bytes. length bytes.items ≤ n) }
    ensures value { IsTrue H.model.tells
        → IfOk result (λ bytes. bytes.items ≡ take n (drop at (file_in (H.model.contents host.old) file))) }
    ensures uses { IfOk result (λ bytes. Uses H.model (record { old = host.old; new = host.new }) (ReadsBy n (length bytes.items))) }
    ensures uses_err { OnErr result (Uses H.model (record { old = host.old; new = host.new }) (MovesBy ReadAt n 0)) }
    ensures looks { LooksAtHost H.model (record { old = host.old; new = host.new }) (is_fault result) }
{
    let mut bytes = Vec::new(alloc);
    let mut len: u32 = 0;
    while len < n {
        let more = read_more(host, file, at + len, n - len, &mut bytes)?;
        if more == 0 {
            return Ok(bytes);
        }
        len += more;
    }
    Ok(bytes)
}

// Asks for one byte, where a read would go past the last place that a number can name. A file of a host that tells has none there.
fn read_past<H: Host>(host: &mut H, file: Num, at: u32) -> Result<Reply, NoMemory>
    requires there { IsFileThere H.model host.old file }
    ensures end { IfOk result (λ reply. (reply ≡ End) ⊎ (reply ≡ Fault 0)) }
    ensures used { IsUsed H.model (ReadAt ∷ []) (record { old = host.old; new = host.new }) }
    ensures looks { LooksAtHost H.model (record { old = host.old; new = host.new }) (replies_fault result) }
{
    match host.read_at(file, at, 1) {
        Ok(_) => Ok(Reply::End),
        Err(HostErr::Fault) => Ok(Reply::Fault(0)),
        Err(HostErr::NoMemory) => Err(NoMemory),
    }
}

// Reads the next n bytes of an open file that the checks let pass.
fn read_next<H: Host>(
    alloc: Global,
    host: &mut H,
    me: &mut Private,
    file: OpenFile,
    n: u32,
) -> Result<Reply, NoMemory>
    requires file { IsOpenAt me.old file }
    requires few { (n ≤ 1024) × (me.old.stored + n ≤ 16384) }
    requires there { IsTrue H.model.tells → IsOpenIn (H.model.contents host.old) (File file.num file.at) }
    ensures passes { (number : ℕ) (undo : Records) → Passes H.model (XRead file.h n) (record {
      old = record { host = host.old; number = number; me = me.old; undo = undo };
      new = record { host = host.new; number = number; me = me.new; undo = undo };
    }) result }
    ensures contents { IsTrue H.model.tells → H.model.contents host.new ≡ H.model.contents host.old }
    ensures stored { me.new.stored ≤ 16384 }
    ensures made { me.new.made ≡ me.old.made }
    ensures now { IfOk result (λ reply. is_late reply ≡ false) }
{
    let OpenFile { h, num, at } = file;
    if n == 0 {
        return Ok(Reply::Got(Chunk::new(alloc, &[])?));
    }
    if at > u32::MAX - n {
        return read_past(host, num, at);
    }
    let bytes = match read_whole(alloc, host, num, at, n) {
        Ok(bytes) => bytes,
        Err(HostErr::Fault) => return Ok(Reply::Fault(0)),
        Err(HostErr::NoMemory) => return Err(NoMemory),
    };
    if bytes.is_empty() {
        return Ok(Reply::End);
    }
    let len = bytes.len() as u32;
    let bytes = Chunk::from_vec(bytes)?;
    me.set_place(h, Place::File { num, at: at + len });
    me.stored += len;
    Ok(Reply::Got(bytes))
}

/// Reads the next n bytes of an open file, fewer where it ends before.
pub fn x_read<H: Host>(
    alloc: Global,
    host: &mut H,
    me: &mut Private,
    h: u16,
    n: u64,
) -> Result<Reply, NoMemory>
    requires stored { me.old.stored ≤ 16384 }
    requires open { IsTrue H.model.tells → IsOpenIn (H.model.contents host.old) (place_of me.old.places h) }
    ensures call { (number : ℕ) (undo : Records) → IsHostCall H.model (XRead h n)
        (record { host = host.old; number = number; me = me.old; undo = undo })
        (record { host = host.new; number = number; me = me.new; undo = undo }) result }
    ensures contents { IsTrue H.model.tells → H.model.contents host.new ≡ H.model.contents host.old }
    ensures stored { me.new.stored ≤ 16384 }
    ensures made { me.new.made ≡ me.old.made }
    ensures now { IfOk result (λ reply. is_late reply ≡ false) }
{
    let file = match open_file(me, h, n) {
        Ok(file) => file,
        Err(reply) => return Ok(reply),
    };
    read_next(alloc, host, me, file, n as u32)
}
