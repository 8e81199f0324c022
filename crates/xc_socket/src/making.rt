ghost use Rattle.std.specs.Prelude.{◌≡◌, ◌≤◌, ◌<◌, [], false, count_by, List, IfOk, IfSome, IfNone, OnErr, IsTrue};
ghost use Rattle.xc_data.specs.Calls.{is_late};
ghost use Rattle.xc_data.specs.Private.{is_vacant};
ghost use Rattle.xc_data.specs.declared.call.Call.TheVariants.{XPair};
ghost use Rattle.xc_data.specs.declared.entry.KeptItem.{KeptItem};
ghost use Rattle.xc_buffers.specs.Items.{keeps_pair};
ghost use Rattle.xc_calls.specs.Calls.{IsHostCall, PassedBy};
ghost use Rattle.xc_host.specs.Fronted.{before, fronted};
ghost use Rattle.xc_host.specs.Kept.{KeepsData};
ghost use Rattle.xc_host.specs.Pairs.{has_pair};
ghost use Rattle.xc_host.specs.Uses.{Uses};
ghost use Rattle.xc_world.specs.Act.Names.{next_num};
ghost use Rattle.xc_socket.specs.Making.{AreVacant, IsMakingPair, with_pair_made};

use xc_compensate::Stack;
use xc_data::{MOST_MADE, NoMemory, Num, Place, Private, Reply, Undo};
use xc_host::{Host, HostErr};

// The two lowest vacant handles, if two are: where side 0 of a pair stands at the first, the second is the lowest.
fn two_vacant(me: &Private, num: Num) -> Option<(u16, u16)>
    ensures vacant { IfSome result (AreVacant me.now num) }
    ensures bound { IfSome result (λ at. (at.0 < 256) × (at.1 < 256)) }
    ensures two { IfSome result (λ at. 2 ≤ count_by is_vacant me.now.places) }
    ensures few { IfNone result (count_by is_vacant me.now.places < 2) }
{
    let h = me.vacant()?;
    let mut one = *me;
    one.set_place(h, Place::Pair { num, side: 0 });
    let g = one.vacant()?;
    Some((h, g))
}

// Makes a pair. The record of it is there before.
fn make_recorded<H: Host>(
    host: &mut H,
    undo: &mut Stack,
    num: Num,
    at: (u16, u16),
) -> Result<Reply, NoMemory>
    requires new { IsTrue H.model.tells → has_pair (H.model.contents host.old) num ≡ false }
    requires none { undo.old.ended ≡ [] }
    ensures making { IsMakingPair H.model num at (record {
      old = record { host = host.old; undo = undo.old };
      new = record { host = host.new; undo = undo.new };
    }) result }
    ensures uses { Uses H.model (record { old = host.old; new = host.new }) (PassedBy XPair result) }
    ensures keeps { IsTrue H.model.tells → KeepsData (H.model.contents host.old) (H.model.contents host.new) }
{
    undo.push(Undo::NewPair(num))?;
    let made = host.new_pair(num);
    if made.is_err() {
        undo.trim(0);
    }
    match made {
        Ok(()) => Ok(Reply::MadePair(at.0, at.1)),
        Err(HostErr::Fault) => Ok(Reply::Fault(0)),
        Err(HostErr::NoMemory) => Err(NoMemory),
    }
}

// Makes a pair, at two vacant handles.
fn make_at<H: Host>(
    host: &mut H,
    me: &mut Private,
    undo: &mut Stack,
    tx: u32,
    at: (u16, u16),
) -> Result<Reply, NoMemory>
    requires few { me.old.made < 16 }
    requires handles { (at.0 < 256) × (at.1 < 256) }
    requires new { IsTrue H.model.tells → has_pair (H.model.contents host.old) (next_num me.old tx) ≡ false }
    requires none { undo.old.ended ≡ [] }
    ensures making { IsMakingPair H.model (next_num me.old tx) at (record {
      old = record { host = host.old; undo = undo.old };
      new = record { host = host.new; undo = undo.new };
    }) result }
    ensures me { IfOk result (λ reply. me.new ≡ with_pair_made me.old at (next_num me.old tx) reply) }
    ensures err { OnErr result (me.new ≡ me.old) }
    ensures uses { Uses H.model (record { old = host.old; new = host.new }) (PassedBy XPair result) }
    ensures keeps { IsTrue H.model.tells → KeepsData (H.model.contents host.old) (H.model.contents host.new) }
{
    let num = Num { tx, k: me.made };
    let reply = make_recorded(host, undo, num, at)?;
    if let Reply::MadePair(_, _) = reply {
        me.set_place(at.0, Place::Pair { num, side: 0 });
        me.set_place(at.1, Place::Pair { num, side: 1 });
        me.made += 1;
    }
    Ok(reply)
}

/// Makes an empty pair, and opens both sides of it, side 0 at the lower handle. Its record is pushed before the host's call. It is
/// the plain machine's whatever is kept in front of the host, but of the new pair.
pub fn x_pair<H: Host>(
    host: &mut H,
    me: &mut Private,
    undo: &mut Stack,
    tx: u32,
) -> Result<Reply, NoMemory>
    requires new { IsTrue H.model.tells → has_pair (H.model.contents host.old) (next_num me.old tx) ≡ false }
    requires none { undo.old.ended ≡ [] }
    ensures call { (items : List KeptItem) → (IsTrue H.model.tells → keeps_pair (next_num me.old tx) items ≡ false)
        → IsHostCall (fronted H.model) XPair
        (record { host = before host.old items; number = tx; me = me.old; undo = undo.old })
        (record { host = before host.new items; number = tx; me = me.new; undo = undo.new }) result }
    ensures stored { me.new.stored ≡ me.old.stored }
    ensures made { me.old.made ≤ 16 → me.new.made ≤ 16 }
    ensures now { IfOk result (λ reply. is_late reply ≡ false) }
    ensures keeps { IsTrue H.model.tells → KeepsData (H.model.contents host.old) (H.model.contents host.new) }
{
    if me.made >= MOST_MADE {
        return Ok(Reply::TooMuch);
    }
    let Some(at) = two_vacant(me, Num { tx, k: me.made }) else {
        return Ok(Reply::TooMuch);
    };
    make_at(host, me, undo, tx, at)
}
