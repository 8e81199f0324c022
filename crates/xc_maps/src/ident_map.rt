ghost use Rattle.std.specs.Prelude.{◌≡◌, IfOk, OnOk, OnErr, None};
ghost use Rattle.std.specs.Option.{option_copied};
ghost use Rattle.std.specs.FinMap as map;
ghost use Rattle.xc_maps.specs.Keys.{name_cmp};

use std::alloc::Global;
use std::collections::BTreeMap;
use std::marker::Model;
use xc_data::{Ident, NoMemory};

/// A finite map from idents.
#[derive(Drop)]
pub struct IdentMap<V> {
    entries: BTreeMap<Ident, V>,
}

impl<V> Model for IdentMap<V> {
    ghost use Rattle.std.specs.FinMap as map;
    ghost use Rattle.xc_maps.specs.Keys.{name_cmp, coded_name};

    ghost Value = { map.FinMap name_cmp V };

    ghost coded = { map.code coded_name V.code };

    ghost view = { λ a. map.from_entries a.entries.entries };
}

impl<V> IdentMap<V> {
    /// An empty map. It takes no memory.
    pub fn new(alloc: Global) -> Self
        ensures { result ≡ map.empty }
    {
        IdentMap {
            entries: BTreeMap::new(alloc),
        }
    }

    /// The value of an identifier, if it has one.
    pub fn get(&self, ident: Ident) -> Option<&V>
        ensures { option_copied result ≡ map.get self.now ident }
    {
        self.entries.get(&ident)
    }
}

impl<V: Drop> IdentMap<V> {
    /// Sets an identifier's value. Only a new identifier can run out of memory.
    pub fn insert(&mut self, ident: Ident, value: V) -> Result<(), NoMemory>
        ensures ok { OnOk result (self.new ≡ map.insert self.old ident value) }
        ensures err { OnErr result (self.new ≡ self.old) }
        ensures absent { OnErr result (map.get self.old ident ≡ None) }
    {
        match self.entries.insert(ident, value) {
            Ok(_) => Ok(()),
            Err(_) => Err(NoMemory),
        }
    }

    /// Takes an identifier's value out, if it has one. It takes no memory.
    pub fn remove(&mut self, ident: Ident) -> Option<V>
        ensures value { result ≡ map.get self.old ident }
        ensures removed { self.new ≡ map.remove self.old ident }

        // It takes back an insertion of a new key.
        ensures undone { (m : _) (x : _) → map.get m ident ≡ None → self.old ≡ map.insert m ident x → self.new ≡ m }
    {
        self.entries.remove(&ident)
    }
}

impl<V: Clone + Drop> IdentMap<V> {
    /// Another map with the same entries, whose values' clones are equal to them.
    pub fn copied(&self) -> Result<Self, NoMemory>
        requires { (a : V) (b : V) → V.is_clone a b → b ≡ a }
        ensures { IfOk result (λ copy. copy ≡ self.now) }
    {
        Ok(IdentMap {
            entries: self.entries.clone()?,
        })
    }
}
