ghost use Rattle.std.specs.Prelude.{◌≡◌, ◌≤◌, ◌<◌, ◌^◌, ◌+◌, ◌-◌, ◌++◌, ◌∷◌, [], length, IfOk, IsOk, OnErr, OnOk};
ghost use Rattle.xc_journal.specs.Told.{waiting_of};

use crate::gone::{Gone, Next};
use std::alloc::Global;
use std::marker::Model;
use std::mem::replace;
use xc_data::{Entry, Items, NoMemory};
use xc_roomy::Roomy;

/// The entries of the transactions that ended, in the order in which they ended. Room for an entry is made before its transaction
/// begins, so entering takes no memory. Entries that were handed out take none either.
#[derive(Drop)]
pub struct Journal {
    // Those that were handed out, and how many they are.
    gone: Gone,
    count: u32,
    held: Roomy<Entry>,
}

impl Model for Journal {
    ghost use Rattle.std.specs.Coded.{codes};
    ghost use Rattle.std.specs.Prelude.{◌≡◌, ◌++◌, length};
    ghost use Rattle.xc_journal.specs.Told.{Journal as PlainJournal};

    ghost Value = { PlainJournal };

    ghost coded = { Prim.hlevel codes };

    ghost view = { λ j. record { items = j.gone.entries ++ j.held.items; gone = j.count; spare = j.held.spare } };

    ghost invariant = { λ j. length j.gone.entries ≡ j.count };
}

impl Journal {
    /// No entry, and no room. It takes no memory.
    pub fn new(alloc: Global) -> Self
        ensures { (result.items ≡ []) × (result.gone ≡ 0) }
    {
        Journal {
            gone: Gone::new(),
            count: 0,
            held: Roomy::new(alloc),
        }
    }

    /// Makes room for `n` more entries. It takes memory only where there is less.
    pub fn reserve(&mut self, n: u32) -> Result<(), NoMemory>
        ensures ok { OnOk result (n ≤ self.new.spare) }
        ensures same { (self.new.items ≡ self.old.items) × (self.new.gone ≡ self.old.gone) }
        ensures spare { self.old.spare ≤ self.new.spare }
    {
        self.held.reserve(n)
    }

    /// The number of all entries.
    pub fn len(&self) -> u32
        requires { length self.now.items < 2 ^ 32 }
        ensures { result ≡ length self.now.items }
    {
        self.count + self.held.len() as u32
    }

    /// How many entries wait to be handed out.
    pub fn waiting(&self) -> usize
        ensures { result ≡ length self.now.items - self.now.gone }
    {
        self.held.len()
    }

    /// The entries that weren't handed out, without a copy.
    pub fn as_slice(&self) -> &[Entry]
        ensures held { result.now ≡ waiting_of self.now }
        ensures all { self.now.gone ≡ 0 → result.now ≡ self.now.items }
    {
        self.held.as_slice()
    }

    /// Enters an entry after the others. It takes no memory.
    pub fn enter(&mut self, entry: Entry)
        requires { 1 ≤ self.old.spare }
        ensures items { self.new.items ≡ self.old.items ++ entry ∷ [] }
        ensures gone { self.new.gone ≡ self.old.gone }
        ensures spare { self.new.spare + 1 ≡ self.old.spare }
    {
        self.held.enter(entry);
    }

    /// Hands out the entries that weren't handed out yet, and makes room for `n` more first. It takes memory for that room alone, and
    /// without it nothing changes.
    pub fn hand_out(&mut self, alloc: Global, n: u32) -> Result<Items<Entry>, NoMemory>
        requires { length self.old.items < 2 ^ 32 }
        ensures items { self.new.items ≡ self.old.items }
        ensures ok { IfOk result (λ entries. entries ≡ waiting_of self.old) }
        ensures gone { OnOk result (self.new.gone ≡ length self.old.items) }
        ensures room { OnOk result (n ≤ self.new.spare) }
        ensures err { OnErr result (self.new ≡ self.old) }
        ensures succeeds { n ≡ 0 → IsOk result }
    {
        let mut room = Roomy::new(alloc);
        room.reserve(n)?;
        let held = replace(&mut self.held, room);
        let next = Next {
            entries: held.as_slice(),
        };
        self.gone = self.gone.then(&next);
        self.count += held.len() as u32;
        Ok(held.into_items())
    }
}
