ghost use Rattle.std.specs.Prelude.{◌≡◌, ◌≤◌, ◌+◌, ◌-◌, ◌^◌, ◌++◌, ◌∷◌, [], true, min, length, take, drop, List, All, MatchOption, OnOk};
ghost use Rattle.std.specs.Prelude.{OnErr};
ghost use Rattle.xc_data.specs.declared.entry.KeptItem.{KeptItem as PlainItem};
ghost use Rattle.xc_buffers.specs.Changes.{PutsAll, PutsFront};
ghost use Rattle.xc_buffers.specs.Items.{AreKept, is_fit};

use crate::kept::Kept;
use crate::rows::capped;
use std::alloc::Global;
use std::marker::Model;
use xc_data::{KeptItem, NoMemory};

/// What the calls of one transaction took from pipes and pairs, the oldest first.
#[derive(Drop)]
pub struct Taken {
    notes: Vec<KeptItem>,
}

impl Model for Taken {
    ghost use Rattle.std.specs.Prelude.{◌≡◌, ◌-◌, true, All, vec_len, vec_capacity};
    ghost use Rattle.xc_buffers.specs.Items.{is_fit};
    ghost use Rattle.xc_buffers.specs.Views.{TakenView};

    ghost Value = { TakenView };

    ghost view = { λ a. record { items = a.notes.items; spare = vec_capacity a.notes - vec_len a.notes } };

    ghost invariant = { λ a. All (λ t. is_fit t ≡ true) a.notes.items };
}

impl Taken {
    /// Nothing was taken. It takes no memory.
    pub fn new(alloc: Global) -> Taken
        ensures { result.items ≡ [] }
    {
        Taken {
            notes: Vec::new(alloc),
        }
    }

    /// How many notes there are, 4,294,967,295 where there are more. Each is fit.
    pub fn count(&self) -> u32
        ensures value { result ≡ min (length self.now.items) (2 ^ 32 - 1) }
        ensures fit { All (λ t. is_fit t ≡ true) self.now.items }
    {
        capped(self.notes.len())
    }

    /// Makes room for one note more. It takes memory only where there is none.
    pub fn reserve(&mut self) -> Result<(), NoMemory>
        ensures ok { OnOk result (1 ≤ self.new.spare) }
        ensures items { self.new.items ≡ self.old.items }
        ensures spare { self.old.spare ≤ self.new.spare }
        ensures err { OnErr result (self.new ≡ self.old) }
    {
        Ok(self.notes.reserve(1)?)
    }

    /// Notes what a call took, after the other notes. It takes no memory.
    pub fn note(&mut self, item: KeptItem)
        requires room { 1 ≤ self.old.spare }
        requires fit { is_fit item ≡ true }
        ensures items { self.new.items ≡ self.old.items ++ item ∷ [] }
        ensures spare { self.new.spare + 1 ≡ self.old.spare }
    {
        self.notes.push_reserved(item);
    }

    /// Gives the newest note back, to the front. It takes no memory.
    pub fn give_last(&mut self, kept: &mut Kept)
        requires { 1 ≤ kept.old.spare }
        ensures given { (notes : List PlainItem) (last : PlainItem) → self.old.items ≡ notes ++ last ∷ []
            → (self.new.items ≡ notes) × PutsFront last kept.old.items kept.new.items }
        ensures spare { kept.old.spare ≤ kept.new.spare + 1 }
        ensures in_order { AreKept kept.old.items → AreKept kept.new.items }
    {
        if let Some(item) = self.notes.pop() {
            kept.give(item);
        }
    }

    /// How many notes there are, as a mark. It takes no memory.
    pub fn mark(&self) -> u32
        ensures { result ≡ min (length self.now.items) (2 ^ 32 - 1) }
    {
        capped(self.notes.len())
    }

    // Takes the newest note where there are more than these. It takes no memory.
    fn pop_above(&mut self, mark: u32) -> Option<KeptItem>
        ensures { MatchOption result ((self.new ≡ self.old) × (length self.old.items ≤ mark)) (λ item.
            (self.old.items ≡ self.new.items ++ item ∷ []) × (mark ≤ length self.new.items) × (is_fit item ≡ true)) }
    {
        if (mark as usize) < self.notes.len() {
            self.notes.pop()
        } else {
            None
        }
    }

    /// Gives back what was noted above a mark, the newest first, so that the oldest of it stands in front as before it was
    /// taken. It takes no memory.
    pub fn give_to(&mut self, kept: &mut Kept, mark: u32)
        requires { length (drop mark self.old.items) ≤ kept.old.spare }
        ensures given { PutsAll (drop mark self.old.items) kept.old.items kept.new.items }
        ensures spare { kept.old.spare ≡ kept.new.spare + length (drop mark self.old.items) }
        ensures left { self.new.items ≡ take mark self.old.items }
        ensures in_order { AreKept kept.old.items → AreKept kept.new.items }
    {
        while let Some(item) = self.pop_above(mark) {
            kept.give(item);
        }
    }

    /// Gives all back, the newest first, so that the oldest stands in front as before it was taken. It takes no memory.
    pub fn give_all(&mut self, kept: &mut Kept)
        requires { length self.old.items ≤ kept.old.spare }
        ensures given { PutsAll self.old.items kept.old.items kept.new.items }
        ensures spare { kept.old.spare ≡ kept.new.spare + length self.old.items }
        ensures none { self.new.items ≡ [] }
        ensures in_order { AreKept kept.old.items → AreKept kept.new.items }
    {
        while let Some(item) = self.notes.pop() {
            kept.give(item);
        }
    }
}
