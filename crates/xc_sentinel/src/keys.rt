ghost use Rattle.std.specs.Prelude.{◌≡◌, OnOk, OnErr};
ghost use Rattle.std.specs.FinMap as map;

use crate::key_tree::KeyTree;
use std::alloc::Global;
use std::marker::Model;
use xc_data::NoMemory;

/// In which slot each active transaction is, by its number. Contracts see a finite map.
///
/// One transaction stands beside the tree. So where one is active at a time, no node of the tree is made and given back for
/// each.
#[derive(Drop)]
pub struct Keys {
    beside: Option<(u32, usize)>,
    tree: KeyTree,
}

impl Model for Keys {
    ghost use Rattle.std.specs.Prelude.{ℕ};
    ghost use Rattle.std.specs.FinMap as map;
    ghost use Rattle.std.specs.Ordering.{nat_cmp};
    ghost use Rattle.std.specs.Coded.{coded_ℕ};
    ghost use Rattle.xc_sentinel.specs.Keys.{with_key};

    ghost Value = { map.FinMap nat_cmp ℕ };

    ghost coded = { map.code coded_ℕ coded_ℕ };

    ghost view = { λ a. with_key a.beside a.tree };
}

impl Keys {
    /// No key yet. It takes no memory.
    pub fn new(alloc: Global) -> Keys
        ensures { result ≡ map.empty }
    {
        Keys {
            beside: None,
            tree: KeyTree::new(alloc),
        }
    }

    /// The key of a transaction's seat in the slab.
    pub fn get(&self, tx: u32) -> Option<usize>
        ensures { result ≡ map.get self.now tx }
    {
        match self.beside {
            Some((number, key)) if number == tx => Some(key),
            _ => self.tree.get(tx),
        }
    }

    /// Notes the key of a new transaction's seat.
    pub fn insert(&mut self, tx: u32, key: usize) -> Result<(), NoMemory>
        ensures ok { OnOk result (self.new ≡ map.insert self.old tx key) }
        ensures err { OnErr result (self.new ≡ self.old) }
    {
        match self.beside {
            Some((number, _)) if number != tx => self.tree.insert(tx, key),
            _ => {
                self.beside = Some((tx, key));
                Ok(())
            }
        }
    }

    /// Gives the key that was there. It takes no memory.
    pub fn remove(&mut self, tx: u32) -> Option<usize>
        ensures value { result ≡ map.get self.old tx }
        ensures removed { self.new ≡ map.remove self.old tx }
    {
        let kept = self.tree.remove(tx);
        match self.beside {
            Some((number, key)) if number == tx => {
                self.beside = None;
                Some(key)
            }
            _ => kept,
        }
    }
}
