ghost use Rattle.std.specs.Prelude.{◌≡◌, ◌<◌, ◌^◌, length, take, IfOk, IsTrue, OnOk};
ghost use Rattle.std.specs.declared.option.Option.TheVariants.{None, Some};
ghost use Rattle.xc_world.specs.Sound.{IsSound};
ghost use Rattle.xc_world.specs.Act.{act};
ghost use Rattle.xc_world.specs.Fits.{fits};
ghost use Rattle.xc_world.specs.World.{World as PlainWorld};
ghost use Rattle.xc_data.specs.declared.private.Private.{Private as PlainPrivate};
ghost use Rattle.xc_world.specs.Run.{BlockState, back_from, block_step, marked, opens};
ghost use Rattle.xc_machine.specs.Blocks.{StandsAt};

use crate::{Replied, World};
use std::alloc::Global;
use std::mem;
use xc_data::{Answer, Call, Items, NoMemory, Private, Reply};

/// What a body was at the save of its open block: its world and private state, and how many late calls it had.
#[derive(Drop)]
pub(crate) struct SavedBody {
    world: World,
    me: Private,
    late: usize,
}

/// A body that is made call by call: what it gave so far and, in an open block, what it was at the save.
#[derive(Drop)]
pub(crate) struct MachineBody {
    pub(crate) replied: Replied,
    saved: Option<SavedBody>,
}

// Keeps the first `n` items.
fn cut<T: Drop>(alloc: Global, list: &mut Items<T>, n: usize)
    ensures { list.new ≡ take n list.old }
{
    let mut items = mem::replace(list, Items::new(alloc)).into_vec();
    items.truncate(n);
    *list = Items::from_vec(items);
}

impl MachineBody {
    /// No call is made yet.
    pub(crate) fn new(alloc: Global) -> MachineBody
        ensures { (w : PlainWorld) (me : PlainPrivate) → StandsAt w me result (opens w me) }
    {
        MachineBody {
            replied: Replied::new(alloc),
            saved: None,
        }
    }

    // A block begins.
    fn save(&mut self, world: &World, me: &Private) -> Result<(), NoMemory>
        ensures stands { (b : BlockState) → StandsAt world.now me.now self.old b
            → OnOk result (StandsAt world.now me.now self.new (record { now = b.now; saved = Some b.now })) }
        ensures replied { OnOk result (self.new.replied ≡ self.old.replied) }
    {
        let saved = SavedBody {
            world: world.copy()?,
            me: *me,
            late: self.replied.late.len(),
        };
        self.saved = Some(saved);
        Ok(())
    }

    // The open block goes back to its save: its replies and claims stay, and what it made counts on.
    fn back(&mut self, world: &mut World, me: &mut Private)
        ensures stands { (b : BlockState) → StandsAt world.old me.old self.old b
            → StandsAt world.new me.new self.new (record { now = back_from b.saved b.now; saved = None }) }
    {
        let Some(saved) = self.saved.take() else {
            return;
        };
        let alloc = world.alloc();
        let places = saved.me.places;
        *world = saved.world;
        me.places = places;
        cut(alloc, &mut self.replied.late, saved.late);
    }

    // What a call does to the open block.
    fn mark(&mut self, world: &mut World, me: &mut Private, call: &Call) -> Result<(), NoMemory>
        ensures stands { (b : BlockState) → StandsAt world.old me.old self.old b
            → OnOk result (StandsAt world.new me.new self.new (marked call.now b.saved b.now)) }
    {
        match call {
            Call::Save => self.save(world, me),
            Call::Keep => {
                self.saved = None;
                Ok(())
            }
            Call::Back => {
                self.back(world, me);
                Ok(())
            }
            // Any other call is made in the block that is open, also one yet to come.
            _ => Ok(()),
        }
    }

    /// Makes a call, with what it met at the host, and gives its reply.
    pub(crate) fn make_call(
        &mut self,
        world: &mut World,
        me: &mut Private,
        tx: u32,
        call: &Call,
        answer: Answer,
    ) -> Result<Reply, NoMemory>
        requires sound { IsSound world.old me.old tx }
        requires fits { IsTrue (fits world.old me.old tx call.now answer) }
        requires words { length world.old.words < 2 ^ 32 }
        ensures stands { (b : BlockState) → StandsAt world.old me.old self.old b → OnOk result
            (StandsAt world.new me.new self.new (block_step tx b (record { call = call.now; answer = answer }))) }
        ensures reply { IfOk result (λ reply. reply ≡ (act world.old me.old tx call.now answer).reply) }
    {
        let reply = self.replied.take_call(world, me, tx, call, answer)?;
        self.mark(world, me, call)?;
        Ok(reply)
    }
}
