ghost use Rattle.std.specs.Prelude.{◌≡◌, IfOk, OnOk, OnErr, None, is_some, true};
ghost use Rattle.std.specs.Option.{option_copied};
ghost use Rattle.std.specs.FinMap as map;
ghost use Rattle.xc_maps.specs.Keys.{num_cmp};

use std::alloc::Global;
use std::collections::BTreeMap;
use std::marker::Model;
use xc_data::{NoMemory, Num};

/// A finite map from numbers.
#[derive(Drop)]
pub struct NumMap<V> {
    entries: BTreeMap<Num, V>,
}

impl<V> Model for NumMap<V> {
    ghost use Rattle.std.specs.FinMap as map;
    ghost use Rattle.xc_maps.specs.Keys.{num_cmp, coded_num};

    ghost Value = { map.FinMap num_cmp V };

    ghost coded = { map.code coded_num V.code };

    ghost view = { λ a. map.from_entries a.entries.entries };
}

impl<V> NumMap<V> {
    /// An empty map. It takes no memory.
    pub fn new(alloc: Global) -> Self
        ensures { result ≡ map.empty }
    {
        NumMap {
            entries: BTreeMap::new(alloc),
        }
    }

    /// The value of a number, if it has one.
    pub fn get(&self, num: Num) -> Option<&V>
        ensures { option_copied result ≡ map.get self.now num }
    {
        self.entries.get(&num)
    }
}

impl<V: Drop> NumMap<V> {
    /// Sets a number's value. Only a new number can run out of memory.
    pub fn insert(&mut self, num: Num, value: V) -> Result<(), NoMemory>
        ensures ok { OnOk result (self.new ≡ map.insert self.old num value) }
        ensures err { OnErr result (self.new ≡ self.old) }
        ensures absent { OnErr result (map.get self.old num ≡ None) }
    {
        match self.entries.insert(num, value) {
            Ok(_) => Ok(()),
            Err(_) => Err(NoMemory),
        }
    }

    /// Sets the value of a number that is there, and gives the old one. It takes no memory.
    pub fn replace(&mut self, num: Num, value: V) -> Option<V>
        requires there { is_some (map.get self.old num) ≡ true }
        ensures value { result ≡ map.get self.old num }
        ensures replaced { self.new ≡ map.insert self.old num value }
    {
        match self.entries.insert(num, value) {
            Ok(held) => held,
            Err(_) => None,
        }
    }

    /// Takes a number's value out, if it has one. It takes no memory.
    pub fn remove(&mut self, num: Num) -> Option<V>
        ensures value { result ≡ map.get self.old num }
        ensures removed { self.new ≡ map.remove self.old num }

        // It takes back an insertion of a new key.
        ensures undone { (m : _) (x : _) → map.get m num ≡ None → self.old ≡ map.insert m num x → self.new ≡ m }
    {
        self.entries.remove(&num)
    }
}

impl<V: Clone + Drop> NumMap<V> {
    /// Another map with the same entries, whose values' clones are equal to them.
    pub fn copied(&self) -> Result<Self, NoMemory>
        requires { (a : V) (b : V) → V.is_clone a b → b ≡ a }
        ensures { IfOk result (λ copy. copy ≡ self.now) }
    {
        Ok(NumMap {
            entries: self.entries.clone()?,
        })
    }
}
