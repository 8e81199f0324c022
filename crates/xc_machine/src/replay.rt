ghost use Rattle.std.specs.Prelude.{◌≡◌, ◌<◌, ◌^◌, length, IfOk};
ghost use Rattle.std.specs.Bool.{Decides, OnTrue};
ghost use Rattle.xc_machine.specs.Blocks.{StandsAt};
ghost use Rattle.xc_machine.specs.Replay.{IsReplayed, told};
ghost use Rattle.xc_world.specs.Sound.{IsSound};
ghost use Rattle.xc_world.specs.Fits.{answer_of};
ghost use Rattle.xc_world.specs.Run.{BlockState, block_step};

use crate::World;
use crate::body::MachineBody;
use xc_data::{Answer, Call, NoMemory, Private, Reply};

// What a call met at the host, as its reply tells.
fn answer_in(reply: &Reply) -> Answer
    ensures { result ≡ answer_of reply.now }
{
    match reply {
        Reply::Fault(n) => Answer::Fault(*n),
        Reply::Undone(n) => Answer::Undone(*n),
        // Any other reply tells of no fault, also one yet to come.
        _ => Answer::Fine,
    }
}

impl MachineBody {
    // Makes a call, where it replies so.
    pub(crate) fn replay_call(
        &mut self,
        world: &mut World,
        me: &mut Private,
        tx: u32,
        call: &Call,
        reply: &Reply,
    ) -> Result<bool, NoMemory>
        requires sound { IsSound world.old me.old tx }
        requires words { length world.old.words < 2 ^ 32 }
        ensures decides { IfOk result (λ yes. Decides yes (IsReplayed world.old me.old tx call.now reply.now)) }
        ensures stands { (b : BlockState) → StandsAt world.old me.old self.old b → IfOk result (λ yes. OnTrue yes
            (StandsAt world.new me.new self.new (block_step tx b (told call.now reply.now)))) }
    {
        let answer = answer_in(reply);
        if !world.fits(me, tx, call, answer) {
            return Ok(false);
        }
        let given = self.make_call(world, me, tx, call, answer)?;
        Ok(given == *reply)
    }
}
