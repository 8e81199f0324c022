ghost use Rattle.std.specs.Prelude.{◌≡◌, ℕ, List, Option, IfOk, OnErr};
ghost use Rattle.xc_data.specs.declared.call.Call.TheVariants.{XThreadCreate};
ghost use Rattle.xc_data.specs.declared.private.Private.{Private as PlainPrivate};
ghost use Rattle.xc_calls.specs.Deferred.{IsDeferred};

use xc_data::{Ident, LateCall, NoMemory, Reply};
use xc_deferred::Late;

/// Keeps the start of a job for the commit. Whether a block has the name, and whether a job more may be started, is seen then.
pub fn x_thread_create(late: &mut Late, block: &Ident) -> Result<Reply, NoMemory>
    ensures call { (me : PlainPrivate) (slot : Option (List ℕ))
        → IfOk result (IsDeferred (XThreadCreate block.now slot) me late.old late.new) }
    ensures err { OnErr result (late.new ≡ late.old) }
{
    late.push(LateCall::Thread(*block))?;
    Ok(Reply::Late)
}
