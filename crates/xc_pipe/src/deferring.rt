ghost use Rattle.std.specs.Prelude.{◌≡◌, ◌≤◌, ◌+◌, List, ℕ, Option, IfOk, OnErr};
ghost use Rattle.xc_data.specs.declared.call.Call.TheVariants.{XShutdown, XWritePipe};
ghost use Rattle.xc_data.specs.Private.{place_of};
ghost use Rattle.xc_calls.specs.Deferred.{IsDeferred, IsKeptWith};
ghost use Rattle.xc_pipe.specs.Deferring.{shuttable_at};

use crate::checks::open_pipe;
use xc_data::{Chunk, LateCall, NoMemory, Object, Place, Private, Reply};
use xc_deferred::Late;

/// Keeps a write to an open pipe for the commit. Whether it is shut and how much fits is seen then; its bytes are stored now.
pub fn x_write_pipe(
    late: &mut Late,
    me: &mut Private,
    h: u16,
    bytes: &Chunk,
) -> Result<Reply, NoMemory>
    requires stored { me.old.stored ≤ 16384 }
    ensures call { (slot : Option (List ℕ)) → IfOk result (IsKeptWith (XWritePipe h bytes.now slot)
        (record { old = me.old; new = me.new }) (record { old = late.old; new = late.new })) }
    ensures err { OnErr result ((late.new ≡ late.old) × (me.new ≡ me.old)) }
    ensures stored { me.new.stored ≤ 16384 }
    ensures made { me.new.made ≡ me.old.made }
{
    let pipe = match open_pipe(me, h, bytes.len() as u64) {
        Ok(pipe) => pipe,
        Err(reply) => return Ok(reply),
    };
    late.push(LateCall::WritePipe(pipe, bytes.share()?))?;
    me.stored += bytes.len() as u32;
    Ok(Reply::Late)
}

// The pipe or the pair at a handle, if one is open there.
fn object_at(me: &Private, h: u16) -> Option<Object>
    ensures { result ≡ shuttable_at (place_of me.now.places h) }
{
    match me.place(h) {
        Place::Pipe(pipe) => Some(Object::Pipe(pipe)),
        Place::Pair { num, .. } => Some(Object::Pair(num)),
        Place::Vacant | Place::File { .. } => None,
    }
}

/// Keeps the shutting of an open pipe or pair for the commit. It is of this object, whatever happens to the handle until then.
pub fn x_shutdown(late: &mut Late, me: &Private, h: u16) -> Result<Reply, NoMemory>
    ensures call { (slot : Option (List ℕ)) → IfOk result (IsDeferred (XShutdown h slot) me.now late.old late.new) }
    ensures err { OnErr result (late.new ≡ late.old) }
{
    let Some(object) = object_at(me, h) else {
        return Ok(Reply::BadHandle);
    };
    late.push(LateCall::Shutdown(object))?;
    Ok(Reply::Late)
}
