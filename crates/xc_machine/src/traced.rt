ghost use Rattle.std.specs.Prelude.{◌≡◌, ◌≢◌, ◌<◌, ◌^◌, ◌∷◌, ◌++◌, [], ℕ, List, length, All, IfOk, IfSome, OnOk, MatchOption};
ghost use Rattle.std.specs.declared.option.Option.TheVariants.{None, Some};
ghost use Rattle.std.specs.Bool.{Decides, OnTrue};
ghost use Rattle.xc_data.specs.Claims.{held_of};
ghost use Rattle.xc_data.specs.declared.call.Answer.{Answer};
ghost use Rattle.xc_data.specs.declared.private.Private.{Private as PlainPrivate};
ghost use Rattle.xc_data.specs.declared.undo.Undo.{Undo as PlainUndo};
ghost use Rattle.xc_machine.specs.Blocks.{StandsAt};
ghost use Rattle.xc_machine.specs.Replay.{IsReplayed, AreReplayed, told};
ghost use Rattle.xc_machine.specs.Traced.{TracesAt};
ghost use Rattle.xc_world.specs.Act.{act};
ghost use Rattle.xc_world.specs.Sound.{IsReady, IsSound};
ghost use Rattle.xc_world.specs.Run.{BlockState, asked_of, back_from, block_step, body, marked, opens};
ghost use Rattle.xc_world.specs.Trail.{recorded};
ghost use Rattle.xc_world.specs.World.{World as PlainWorld};

use crate::body::MachineBody;
use crate::{Replied, World};
use std::alloc::Global;
use xc_data::{Call, Items, NoMemory, Private, Reply, Undo};

/// A body that was run again: what it gave, and the records of its calls.
#[derive(Drop)]
pub struct Traced {
    pub replied: Replied,
    pub trail: Items<Undo>,
}

/// The records of a body so far and, in an open block, how many there were at the save.
#[derive(Drop)]
pub(crate) struct Trail {
    records: Vec<Undo>,
    saved: Option<usize>,
}

impl Trail {
    fn new(alloc: Global) -> Trail
        ensures { (w : PlainWorld) (me : PlainPrivate) → TracesAt result (opens w me) }
    {
        Trail {
            records: Vec::new(alloc),
            saved: None,
        }
    }

    // A block begins.
    fn save(&mut self)
        ensures { (b : BlockState) → TracesAt self.old b → TracesAt self.new (record { now = b.now; saved = Some b.now }) }
    {
        self.saved = Some(self.records.len());
    }

    // The open block goes back to its save.
    fn back(&mut self)
        ensures { (b : BlockState) → TracesAt self.old b → TracesAt self.new (record { now = back_from b.saved b.now; saved = None }) }
    {
        let Some(saved) = self.saved.take() else {
            return;
        };
        self.records.truncate(saved);
    }

    // What a call does to the open block.
    fn mark(&mut self, call: &Call)
        ensures { (b : BlockState) → TracesAt self.old b → TracesAt self.new (marked call.now b.saved b.now) }
    {
        match call {
            Call::Save => self.save(),
            Call::Keep => self.saved = None,
            Call::Back => self.back(),
            // Any other call is made in the block that is open, also one yet to come.
            _ => {}
        }
    }

    // A call leaves this record, if any.
    fn push(&mut self, left: Option<Undo>) -> Result<(), NoMemory>
        ensures records { (us : List PlainUndo) → MatchOption left (us ≡ []) (λ u. us ≡ u ∷ [])
            → OnOk result (self.new.records.items ≡ self.old.records.items ++ us) }
        ensures saved { OnOk result (self.new.saved ≡ self.old.saved) }
    {
        if let Some(undo) = left {
            self.records.push(undo)?;
        }
        Ok(())
    }

    // With one call more, which left this record.
    fn take_call(&mut self, call: &Call, left: Option<Undo>) -> Result<(), NoMemory>
        ensures { (tx : ℕ) (b : BlockState) (answer : Answer)
            → MatchOption left (recorded b.now.world b.now.me tx call.now (act b.now.world b.now.me tx call.now answer).reply ≡ [])
            (λ u. recorded b.now.world b.now.me tx call.now (act b.now.world b.now.me tx call.now answer).reply ≡ u ∷ [])
            → TracesAt self.old b → OnOk result (TracesAt self.new (block_step tx b (record { call = call.now; answer = answer }))) }
    {
        self.push(left)?;
        self.mark(call);
        Ok(())
    }
}

impl MachineBody {
    // Makes a call, where it replies so, and traces its record.
    fn trace_call(
        &mut self,
        trail: &mut Trail,
        world: &mut World,
        me: &mut Private,
        tx: u32,
        call: &Call,
        reply: &Reply,
    ) -> Result<bool, NoMemory>
        requires sound { IsSound world.old me.old tx }
        requires words { length world.old.words < 2 ^ 32 }
        ensures decides { IfOk result (λ yes. Decides yes (IsReplayed world.old me.old tx call.now reply.now)) }
        ensures stands { (b : BlockState) → StandsAt world.old me.old self.old b → IfOk result (λ yes. OnTrue yes
            (StandsAt world.new me.new self.new (block_step tx b (told call.now reply.now)))) }
        ensures traces { (b : BlockState) → StandsAt world.old me.old self.old b → TracesAt trail.old b → IfOk result (λ yes. OnTrue yes
            (TracesAt trail.new (block_step tx b (told call.now reply.now)))) }
    {
        let left = world.record_of(me, tx, call, reply)?;
        if !self.replay_call(world, me, tx, call, reply)? {
            return Ok(false);
        }
        trail.take_call(call, left)?;
        Ok(true)
    }
}

/// The calls of a body one after another, as long as each replies as it is recorded: what it gave, and its records.
pub fn replay_traced(
    alloc: Global,
    world: &mut World,
    me: &mut Private,
    tx: u32,
    calls: &[Call],
    replies: &[Reply],
) -> Result<Option<Traced>, NoMemory>
    requires sound { IsSound world.old me.old tx }
    requires words { length world.old.words < 2 ^ 32 }
    ensures decides { IfOk result (λ r. MatchOption r (AreReplayed world.old me.old tx calls.now replies.now → ⊥)
        (λ _. AreReplayed world.old me.old tx calls.now replies.now)) }
    ensures sound { IfOk result (λ r. IfSome r (λ _. IsSound world.new me.new tx)) }
    ensures world { IfOk result (λ r. IfSome r (λ _. world.new ≡ (body world.old me.old tx (asked_of calls.now replies.now)).world)) }
    ensures me { IfOk result (λ r. IfSome r (λ _. me.new ≡ (body world.old me.old tx (asked_of calls.now replies.now)).me)) }
    ensures late { IfOk result (λ r. IfSome r (λ r. r.replied.late ≡ (body world.old me.old tx (asked_of calls.now replies.now)).late)) }
    ensures held { IfOk result (λ r. IfSome r (λ r. r.replied.held.items
        ≡ held_of (body world.old me.old tx (asked_of calls.now replies.now)).touched)) }
    ensures trail { IfOk result (λ r. IfSome r (λ r. r.trail ≡ (body world.old me.old tx (asked_of calls.now replies.now)).trail)) }
    ensures words { IfOk result (λ r. IfSome r (λ _. length world.new.words ≡ length world.old.words)) }
    ensures ready { IfOk result (λ r. IfSome r (λ r. All (IsReady world.new) r.replied.late)) }
{
    if calls.len() != replies.len() {
        return Ok(None);
    }
    let mut body = MachineBody::new(alloc);
    let mut trail = Trail::new(alloc);
    for (at, call) in calls.iter().enumerate() {
        if !body.trace_call(&mut trail, world, me, tx, call, &replies[at])? {
            return Ok(None);
        }
    }
    Ok(Some(Traced {
        replied: body.replied,
        trail: Items::from_vec(trail.records),
    }))
}
