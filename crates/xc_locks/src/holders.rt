ghost use Rattle.std.specs.Prelude.{◌≡◌, ◌+◌, ℕ, None, Some, IfSome, IfNone, IfOk, IfErr, OnOk, OnErr};
ghost use Rattle.xc_data.specs.declared.object.Object.{Object};

use crate::key::LockKey;
use crate::object_holders::ObjectHolders;
use crate::others::Others;
use crate::refusal::Refusal;
use crate::steps::Steps;
use crate::words::WordLocks;
use std::alloc::Global;
use std::sync::ledger::Ledger;
use xc_data::{Mode, NoMemory, Object};

/// Who holds which object, and in which mode: words by their places, all others by hash. Contracts see it by `held_mode`. It is looked
/// up, held in, claimed in and taken from, an object a call, and each call is a step.
#[derive(Drop)]
pub struct Holders {
    words: WordLocks,
    others: Others,
}

impl Holders {
    ghost use Rattle.xc_locks.specs.Table.{held_mode, modes_of, set_mode};
    ghost use Rattle.xc_locks.specs.Others.{MayHold, IsReason};
    ghost use Rattle.xc_locks.specs.Rows.{mode_among, with_mode};

    /// Nobody holds anything. It takes no memory.
    pub fn new(alloc: Global) -> Self
        ensures { (n : ℕ) (o : Object) → held_mode result n o ≡ None }
    {
        Holders {
            words: WordLocks::new(alloc),
            others: Others::new(alloc),
        }
    }

    /// The holders of an object.
    pub fn look<L: Ledger>(&self, object: &Object, steps: &mut Steps<L>) -> Option<&ObjectHolders>
        ensures some { IfSome result (λ m. (n : ℕ) → held_mode self.now n object.now ≡ mode_among m.now n) }
        ensures none { IfNone result ((n : ℕ) → held_mode self.now n object.now ≡ None) }
        ensures cost { steps.new ≡ steps.old + 1 }
    {
        steps.tick();
        match LockKey::of(object) {
            LockKey::Word(at) => self.words.holders_of(at),
            LockKey::Other(object) => self.others.holders_of(object),
        }
    }

    /// The transaction holds the object in this mode, or in the stronger one where it did already. Only a new holder can run out of
    /// memory.
    pub fn hold<L: Ledger>(
        &mut self,
        object: &Object,
        tx: u32,
        mode: Mode,
        steps: &mut Steps<L>,
    ) -> Result<(), NoMemory>
        ensures ok { OnOk result (self.new ≡ set_mode self.old tx object.now (Some (with_mode (held_mode self.old tx object.now) mode))) }
        ensures err { OnErr result (self.new ≡ self.old) }
        ensures absent { OnErr result (held_mode self.old tx object.now ≡ None) }
        ensures cost { steps.new ≡ steps.old + 1 }
    {
        steps.tick();
        match LockKey::of(object) {
            LockKey::Word(at) => self.words.hold(at, tx, mode),
            LockKey::Other(object) => self.others.hold(object, tx, mode),
        }
    }

    /// The same, unless the smallest other holder has a mode that isn't compatible. Gives the mode in which the transaction held the
    /// object before.
    pub fn claim<L: Ledger>(
        &mut self,
        object: &Object,
        tx: u32,
        mode: Mode,
        steps: &mut Steps<L>,
    ) -> Result<Option<Mode>, Refusal>
        ensures was { IfOk result (λ was. was ≡ held_mode self.old tx object.now) }
        ensures free { OnOk result (MayHold (modes_of self.old object.now) tx mode) }
        ensures ok { OnOk result (self.new ≡ set_mode self.old tx object.now (Some (with_mode (held_mode self.old tx object.now) mode))) }
        ensures err { OnErr result (self.new ≡ self.old) }
        ensures reason { IfErr result (IsReason (modes_of self.old object.now) tx mode) }
        ensures cost { steps.new ≡ steps.old + 1 }
    {
        steps.tick();
        match LockKey::of(object) {
            LockKey::Word(at) => self.words.claim(at, tx, mode),
            LockKey::Other(object) => self.others.claim(object, tx, mode),
        }
    }

    /// The transaction doesn't hold the object any longer. Gives the mode in which it did. It takes no memory.
    pub fn take<L: Ledger>(
        &mut self,
        object: &Object,
        tx: u32,
        steps: &mut Steps<L>,
    ) -> Option<Mode>
        ensures value { result ≡ held_mode self.old tx object.now }
        ensures removed { self.new ≡ set_mode self.old tx object.now None }
        ensures cost { steps.new ≡ steps.old + 1 }
    {
        steps.tick();
        match LockKey::of(object) {
            LockKey::Word(at) => self.words.remove(at, tx),
            LockKey::Other(object) => self.others.remove(object, tx),
        }
    }
}
