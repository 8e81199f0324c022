ghost use Rattle.std.specs.Prelude.{◌≡◌, ℕ, List, Option, IfOk, OnErr};
ghost use Rattle.xc_data.specs.declared.call.Call.TheVariants.{XUnlink, XSync};
ghost use Rattle.xc_data.specs.declared.private.Private.{Private as PlainPrivate};
ghost use Rattle.xc_calls.specs.Deferred.{IsDeferred};

use crate::checks::file_at;
use xc_data::{LateCall, NoMemory, Private, Reply, SharedName};
use xc_deferred::Late;

/// Keeps the removal of a name for the commit. Whether the name is there is seen then.
pub fn x_unlink(late: &mut Late, name: &SharedName) -> Result<Reply, NoMemory>
    ensures call { (me : PlainPrivate) (slot : Option (List ℕ)) → IfOk result (IsDeferred (XUnlink name.now slot) me late.old late.new) }
    ensures err { OnErr result (late.new ≡ late.old) }
{
    late.push(LateCall::Unlink(name.again()))?;
    Ok(Reply::Late)
}

/// Keeps the sync of an open file for the commit. It is of this file, whatever happens to the handle until then.
pub fn x_sync(late: &mut Late, me: &Private, h: u16) -> Result<Reply, NoMemory>
    ensures call { (slot : Option (List ℕ)) → IfOk result (IsDeferred (XSync h slot) me.now late.old late.new) }
    ensures err { OnErr result (late.new ≡ late.old) }
{
    let Some(file) = file_at(me, h) else {
        return Ok(Reply::BadHandle);
    };
    late.push(LateCall::Sync(file.num))?;
    Ok(Reply::Late)
}
