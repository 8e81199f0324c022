ghost use Rattle.std.specs.Prelude.{◌≡◌, IfOk, OnOk, OnErr, None, Some, is_some, true};
ghost use Rattle.std.specs.Option.{option_copied};
ghost use Rattle.std.specs.FinMap as map;
ghost use Rattle.xc_maps.specs.Keys.{name_cmp};

use crate::aside::{make_room, place, put_away, take, take_out};
use std::alloc::Global;
use std::collections::BTreeMap;
use std::marker::Model;
use xc_data::{Name, NoMemory};

/// A finite map from names. A call takes the logarithm of the number of names, and a look at each name
/// that was given by `rename` since `settle`.
#[derive(Drop)]
pub struct NameMap<V> {
    entries: BTreeMap<Name, V>,
    // Entries under their new names, until memory may be taken. There is room for all entries.
    moved: Vec<(Name, V)>,
}

impl<V> Model for NameMap<V> {
    ghost use Rattle.std.specs.Prelude.{◌++◌, vec_capacity};
    ghost use Rattle.std.specs.FinMap as map;
    ghost use Rattle.xc_maps.specs.Keys.{name_cmp, coded_name};
    ghost use Rattle.xc_maps.specs.Moved.{FitOutside};

    ghost Value = { map.FinMap name_cmp V };

    ghost coded = { map.code coded_name V.code };

    ghost view = { λ a. map.from_entries (a.moved.items ++ a.entries.entries) };

    ghost invariant = { λ a. FitOutside name_cmp a.moved.items a.entries.entries (vec_capacity a.moved) };
}

impl<V> NameMap<V> {
    /// An empty map. It takes no memory.
    pub fn new(alloc: Global) -> Self
        ensures { result ≡ map.empty }
    {
        NameMap {
            entries: BTreeMap::new(alloc),
            moved: Vec::new(alloc),
        }
    }

    /// The value of a name, if it has one.
    pub fn get(&self, name: Name) -> Option<&V>
        ensures { option_copied result ≡ map.get self.now name }
    {
        match place(self.moved.as_slice(), name) {
            Some(at) => Some(&self.moved[at].1),
            None => self.entries.get(&name),
        }
    }
}

impl<V: Drop> NameMap<V> {
    /// Sets a name's value. Only a new name can run out of memory.
    pub fn insert(&mut self, name: Name, value: V) -> Result<(), NoMemory>
        ensures ok { OnOk result (self.new ≡ map.insert self.old name value) }
        ensures err { OnErr result (self.new ≡ self.old) }
        ensures absent { OnErr result (map.get self.old name ≡ None) }
    {
        if take_out(&mut self.moved, name).is_some() {
            self.moved.push_reserved((name, value));
            return Ok(());
        }
        if !make_room(&mut self.moved, &self.entries, name) {
            return Err(NoMemory);
        }
        match self.entries.insert(name, value) {
            Ok(_) => Ok(()),
            Err(_) => Err(NoMemory),
        }
    }

    /// Takes a name's value out, if it has one. It takes no memory.
    pub fn remove(&mut self, name: Name) -> Option<V>
        ensures value { result ≡ map.get self.old name }
        ensures removed { self.new ≡ map.remove self.old name }

        // It takes back an insertion of a new key.
        ensures undone { (m : _) (x : _) → map.get m name ≡ None → self.old ≡ map.insert m name x → self.new ≡ m }
    {
        take(&mut self.moved, &mut self.entries, name)
    }

    /// Gives the entry of a name another name, which is absent. It takes no memory.
    pub fn rename(&mut self, from: Name, to: Name)
        requires there { is_some (map.get self.old from) ≡ true }
        requires absent { map.get self.old to ≡ None }
        ensures { (x : V) → map.get self.old from ≡ Some x → self.new ≡ map.insert (map.remove self.old from) to x }
    {
        if let Some(value) = take(&mut self.moved, &mut self.entries, from) {
            self.moved.push_reserved((to, value));
        }
    }

    /// Puts away what `rename` left, as far as there is memory. It changes nothing that is seen.
    pub fn settle(&mut self)
        ensures { self.new ≡ self.old }
    {
        put_away(&mut self.moved, &mut self.entries);
    }
}

impl<V: Clone + Drop> NameMap<V> {
    /// Another map with the same entries, whose values' clones are equal to them.
    pub fn copied(&self) -> Result<Self, NoMemory>
        requires { (a : V) (b : V) → V.is_clone a b → b ≡ a }
        ensures { IfOk result (λ copy. copy ≡ self.now) }
    {
        let entries = self.entries.clone()?;
        let mut moved = self.moved.clone()?;
        moved.reserve(entries.len())?;
        Ok(NameMap { entries, moved })
    }
}
