ghost use Rattle.std.specs.Prelude.{◌≡◌, OnOk, OnErr};
ghost use Rattle.std.specs.FinMap as map;

use std::alloc::Global;
use std::collections::BTreeMap;
use std::marker::Model;
use xc_data::NoMemory;

/// Keys of seats by the numbers of transactions, in a tree. Contracts see a finite map.
#[derive(Drop)]
pub struct KeyTree {
    entries: BTreeMap<u32, usize>,
}

impl Model for KeyTree {
    ghost use Rattle.std.specs.Prelude.{ℕ};
    ghost use Rattle.std.specs.FinMap as map;
    ghost use Rattle.std.specs.Ordering.{nat_cmp};
    ghost use Rattle.std.specs.Coded.{coded_ℕ};

    ghost Value = { map.FinMap nat_cmp ℕ };

    ghost coded = { map.code coded_ℕ coded_ℕ };

    ghost view = { λ a. map.from_entries a.entries.entries };
}

impl KeyTree {
    /// No key yet. It takes no memory.
    pub fn new(alloc: Global) -> KeyTree
        ensures { result ≡ map.empty }
    {
        KeyTree {
            entries: BTreeMap::new(alloc),
        }
    }

    /// The key of a transaction's seat in the slab.
    pub fn get(&self, tx: u32) -> Option<usize>
        ensures { result ≡ map.get self.now tx }
    {
        self.entries.get(&tx).copied()
    }

    /// Notes the key of a new transaction's seat.
    pub fn insert(&mut self, tx: u32, key: usize) -> Result<(), NoMemory>
        ensures ok { OnOk result (self.new ≡ map.insert self.old tx key) }
        ensures err { OnErr result (self.new ≡ self.old) }
    {
        self.entries.insert(tx, key)?;
        Ok(())
    }

    /// Gives the key that was there. It takes no memory.
    pub fn remove(&mut self, tx: u32) -> Option<usize>
        ensures value { result ≡ map.get self.old tx }
        ensures removed { self.new ≡ map.remove self.old tx }
    {
        self.entries.remove(&tx)
    }
}
