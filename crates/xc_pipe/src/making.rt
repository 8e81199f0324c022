ghost use Rattle.std.specs.Prelude.{◌≡◌, ◌≤◌, ◌<◌, [], false, List, IfOk, OnErr, IsTrue};
ghost use Rattle.xc_data.specs.Calls.{is_late};
ghost use Rattle.xc_data.specs.declared.call.Call.TheVariants.{XPipe};
ghost use Rattle.xc_data.specs.declared.entry.KeptItem.{KeptItem};
ghost use Rattle.xc_buffers.specs.Items.{kept_bytes};
ghost use Rattle.xc_calls.specs.Calls.{IsHostCall, PassedBy};
ghost use Rattle.xc_host.specs.Fronted.{before, fronted};
ghost use Rattle.xc_host.specs.Kept.{KeepsData};
ghost use Rattle.xc_host.specs.Pipes.{has_pipe};
ghost use Rattle.xc_host.specs.Uses.{Uses};
ghost use Rattle.xc_world.specs.Act.Names.{next_num};
ghost use Rattle.xc_pipe.specs.Making.{IsMakingPipe, with_pipe_made};

use xc_compensate::Stack;
use xc_data::{MOST_MADE, NoMemory, Num, Place, Private, Reply, Undo};
use xc_host::{Host, HostErr};

// Makes a pipe. The record of it is there before.
fn make_recorded<H: Host>(
    host: &mut H,
    undo: &mut Stack,
    num: Num,
    h: u16,
) -> Result<Reply, NoMemory>
    requires new { IsTrue H.model.tells → has_pipe (H.model.contents host.old) num ≡ false }
    requires none { undo.old.ended ≡ [] }
    ensures making { IsMakingPipe H.model num h (record {
      old = record { host = host.old; undo = undo.old };
      new = record { host = host.new; undo = undo.new };
    }) result }
    ensures uses { Uses H.model (record { old = host.old; new = host.new }) (PassedBy XPipe result) }
    ensures keeps { IsTrue H.model.tells → KeepsData (H.model.contents host.old) (H.model.contents host.new) }
{
    undo.push(Undo::NewPipe(num))?;
    let made = host.new_pipe(num);
    if made.is_err() {
        undo.trim(0);
    }
    match made {
        Ok(()) => Ok(Reply::Made(h)),
        Err(HostErr::Fault) => Ok(Reply::Fault(0)),
        Err(HostErr::NoMemory) => Err(NoMemory),
    }
}

// Makes a pipe, at a vacant handle.
fn make_at<H: Host>(
    host: &mut H,
    me: &mut Private,
    undo: &mut Stack,
    tx: u32,
    h: u16,
) -> Result<Reply, NoMemory>
    requires few { me.old.made < 16 }
    requires handle { h < 256 }
    requires new { IsTrue H.model.tells → has_pipe (H.model.contents host.old) (next_num me.old tx) ≡ false }
    requires none { undo.old.ended ≡ [] }
    ensures making { IsMakingPipe H.model (next_num me.old tx) h (record {
      old = record { host = host.old; undo = undo.old };
      new = record { host = host.new; undo = undo.new };
    }) result }
    ensures me { IfOk result (λ reply. me.new ≡ with_pipe_made me.old h (next_num me.old tx) reply) }
    ensures err { OnErr result (me.new ≡ me.old) }
    ensures uses { Uses H.model (record { old = host.old; new = host.new }) (PassedBy XPipe result) }
    ensures keeps { IsTrue H.model.tells → KeepsData (H.model.contents host.old) (H.model.contents host.new) }
{
    let num = Num { tx, k: me.made };
    let reply = make_recorded(host, undo, num, h)?;
    if let Reply::Made(_) = reply {
        me.set_place(h, Place::Pipe(num));
        me.made += 1;
    }
    Ok(reply)
}

/// Makes an empty pipe, and opens it. Its record is pushed before the host's call. It is the plain machine's whatever is
/// kept in front of the host, but of the new pipe.
pub fn x_pipe<H: Host>(
    host: &mut H,
    me: &mut Private,
    undo: &mut Stack,
    tx: u32,
) -> Result<Reply, NoMemory>
    requires new { IsTrue H.model.tells → has_pipe (H.model.contents host.old) (next_num me.old tx) ≡ false }
    requires none { undo.old.ended ≡ [] }
    ensures call { (items : List KeptItem) → (IsTrue H.model.tells → kept_bytes (next_num me.old tx) items ≡ [])
        → IsHostCall (fronted H.model) XPipe
        (record { host = before host.old items; number = tx; me = me.old; undo = undo.old })
        (record { host = before host.new items; number = tx; me = me.new; undo = undo.new }) result }
    ensures stored { me.new.stored ≡ me.old.stored }
    ensures made { me.old.made ≤ 16 → me.new.made ≤ 16 }
    ensures now { IfOk result (λ reply. is_late reply ≡ false) }
    ensures keeps { IsTrue H.model.tells → KeepsData (H.model.contents host.old) (H.model.contents host.new) }
{
    if me.made >= MOST_MADE {
        return Ok(Reply::TooMuch);
    }
    let Some(h) = me.vacant() else {
        return Ok(Reply::TooMuch);
    };
    make_at(host, me, undo, tx, h)
}
