ghost use Rattle.std.specs.Prelude.{◌≡◌, ◌≤◌, List, ℕ, Option, IfOk, OnErr};
ghost use Rattle.xc_data.specs.declared.call.Call.TheVariants.{XSendmsg};
ghost use Rattle.xc_data.specs.Private.{IsSided, place_of};
ghost use Rattle.xc_calls.specs.Deferred.{IsKeptWith};

use crate::checks::open_side;
use xc_data::{Chunk, LateCall, NoMemory, Private, Reply};
use xc_deferred::Late;

/// Keeps the sending of a message for the commit. Whether the pair is shut and whether the other side is full is seen then; its
/// bytes are stored now. An empty message is a message.
pub fn x_sendmsg(
    late: &mut Late,
    me: &mut Private,
    h: u16,
    bytes: &Chunk,
) -> Result<Reply, NoMemory>
    requires stored { me.old.stored ≤ 16384 }
    requires side { IsSided (place_of me.old.places h) }
    ensures call { (slot : Option (List ℕ)) → IfOk result (IsKeptWith (XSendmsg h bytes.now slot)
        (record { old = me.old; new = me.new }) (record { old = late.old; new = late.new })) }
    ensures err { OnErr result ((late.new ≡ late.old) × (me.new ≡ me.old)) }
    ensures stored { me.new.stored ≤ 16384 }
    ensures made { me.new.made ≡ me.old.made }
{
    let at = match open_side(me, h, bytes.len() as u64) {
        Ok(at) => at,
        Err(reply) => return Ok(reply),
    };
    late.push(LateCall::Send {
        pair: at.pair,
        side: at.side,
        bytes: bytes.share()?,
    })?;
    me.stored += bytes.len() as u32;
    Ok(Reply::Late)
}
