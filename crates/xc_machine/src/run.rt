ghost use Rattle.std.specs.Prelude.{◌≡◌, ◌<◌, ◌^◌, ◌∷◌, ◌++◌, [], length, IsTrue, IfOk, OnOk, MatchOption};
ghost use Rattle.xc_data.specs.Claims.{holding};
ghost use Rattle.xc_world.specs.Sound.{IsSound};
ghost use Rattle.xc_world.specs.Act.{act};
ghost use Rattle.xc_world.specs.Fits.{fits};
ghost use Rattle.xc_world.specs.Late.{kept_call};
ghost use Rattle.xc_data.specs.Calls.{late_call};
ghost use Rattle.xc_world.specs.Modes.{claims_of};

use crate::{World, hold};
use arrayvec::ArrayVec;
use std::alloc::Global;
use xc_data::{Answer, Call, Claim, Items, LateCall, NoMemory, Private, Reply};
use xc_world::push_claims;

/// What a body gave on its way: its late calls, in the order of their calls, and its claims, each object once.
#[derive(Drop)]
pub struct Replied {
    pub late: Items<LateCall>,
    pub held: Vec<Claim>,
}

impl Replied {
    pub(crate) fn new(alloc: Global) -> Replied
        ensures late { result.late ≡ [] }
        ensures held { result.held.items ≡ [] }
    {
        Replied {
            late: Items::new(alloc),
            held: Vec::new(alloc),
        }
    }

    // A call that got this reply leaves its late call where that is Late.
    fn keep(&mut self, reply: &Reply, late: Option<LateCall>) -> Result<(), NoMemory>
        ensures late { (call : _) (me : _) → MatchOption late (late_call call me ≡ []) (λ l. late_call call me ≡ l ∷ [])
            → OnOk result (self.new.late ≡ self.old.late ++ kept_call call me reply.now) }
        ensures held { OnOk result (self.new.held ≡ self.old.held) }
    {
        if let Some(call) = late
            && reply.is_late()
        {
            self.late.push(call)?;
        }
        Ok(())
    }

    // Makes a call of the body, with what it met at the host, and gives its reply.
    pub(crate) fn take_call(
        &mut self,
        world: &mut World,
        me: &mut Private,
        tx: u32,
        call: &Call,
        answer: Answer,
    ) -> Result<Reply, NoMemory>
        requires sound { IsSound world.old me.old tx }
        requires fits { IsTrue (fits world.old me.old tx call.now answer) }
        requires words { length world.old.words < 2 ^ 32 }
        ensures sound { OnOk result (IsSound world.new me.new tx) }
        ensures world { OnOk result (world.new ≡ (act world.old me.old tx call.now answer).world) }
        ensures me { OnOk result (me.new ≡ (act world.old me.old tx call.now answer).me) }
        ensures reply { IfOk result (λ reply. reply ≡ (act world.old me.old tx call.now answer).reply) }
        ensures late { OnOk result (self.new.late
            ≡ self.old.late ++ kept_call call.now me.old (act world.old me.old tx call.now answer).reply) }
        ensures held { OnOk result (self.new.held.items
            ≡ holding self.old.held.items (claims_of call.now me.old (length world.old.words))) }
    {
        let late = call.late_call(me)?;
        let mut claims = ArrayVec::new();
        push_claims(&mut claims, call, me, world.word_count() as u32);
        hold(&mut self.held, claims.as_slice())?;
        let reply = world.act(me, tx, call, answer)?;
        self.keep(&reply, late)?;
        Ok(reply)
    }
}
