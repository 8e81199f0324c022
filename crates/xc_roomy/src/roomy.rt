ghost use Rattle.std.specs.Prelude.{◌≡◌, ◌↔◌, ◌++◌, ◌∷◌, [], ◌+◌, ◌≤◌, ◌<◌, length, take, slice_get, slice_set, Some, IsTrue, IsOk, OnOk};
ghost use Rattle.std.specs.Prelude.{OnErr, reverse};

use std::alloc::Global;
use std::marker::Model;
use xc_data::{Items, NoMemory};

/// A list, with room for more items.
#[derive(Debug, Drop)]
pub struct Roomy<T> {
    items: Vec<T>,
}

impl<T> Model for Roomy<T> {
    ghost use Rattle.std.specs.Prelude.{◌-◌, vec_len, vec_capacity};
    ghost use Rattle.xc_roomy.specs.Room.{Roomy as Listed, coded_roomy};

    ghost Value = { Listed T };

    ghost coded = { coded_roomy T.code };

    ghost view = { λ a. record { items = a.items.items; spare = vec_capacity a.items - vec_len a.items } };
}

impl<T> Roomy<T> {
    /// No item, and no room. It takes no memory.
    pub fn new(alloc: Global) -> Self
        ensures { result.items ≡ [] }
    {
        Roomy {
            items: Vec::new(alloc),
        }
    }

    /// Makes room for `n` more items. It takes memory only where there is less.
    ///
    /// Room that is made is at least as large as the list, so that entering one item after another
    /// moves each a bounded number of times.
    pub fn reserve(&mut self, n: u32) -> Result<(), NoMemory>
        ensures ok { OnOk result (n ≤ self.new.spare) }
        ensures items { self.new.items ≡ self.old.items }
        ensures spare { self.old.spare ≤ self.new.spare }
        ensures succeeds { n ≤ self.old.spare → IsOk result }
        ensures kept { n ≤ self.old.spare → self.new ≡ self.old }
        ensures doubles { self.old.spare < n → OnOk result (length self.old.items ≤ self.new.spare) }
        ensures err { OnErr result (self.new ≡ self.old) }
    {
        let wanted = n as usize;
        if wanted <= self.spare() {
            return Ok(());
        }
        Ok(self.items.reserve(wanted.max(self.items.len()))?)
    }

    /// How many more items go in without memory.
    pub fn spare(&self) -> usize
        ensures { result ≡ self.now.spare }
    {
        self.items.capacity() - self.items.len()
    }

    /// The number of items.
    pub fn len(&self) -> usize
        ensures { result ≡ length self.now.items }
    {
        self.items.len()
    }

    /// Whether there is no item.
    pub fn is_empty(&self) -> bool
        ensures { IsTrue result ↔ (self.now.items ≡ []) }
    {
        self.items.is_empty()
    }

    /// The item at a place, which counts from 0.
    pub fn get(&self, at: usize) -> &T
        requires { at < length self.now.items }
        ensures { slice_get self.now.items at ≡ Some result.now }
    {
        &self.items[at]
    }

    /// The items, without a copy.
    pub fn as_slice(&self) -> &[T]
        ensures { result.now ≡ self.now.items }
    {
        self.items.as_slice()
    }

    /// Turns the items round: the last one comes first. It takes no memory.
    pub fn reverse(&mut self)
        ensures items { self.new.items ≡ reverse self.old.items }
        ensures spare { self.new.spare ≡ self.old.spare }
    {
        self.items.as_mut_slice().reverse();
    }

    /// The room that is left is given back. It takes no memory.
    pub fn into_items(self) -> Items<T>
        ensures { result ≡ self.items }
    {
        Items::from_vec(self.items).trimmed()
    }
}

impl<T: Drop> Roomy<T> {
    /// Enters an item after the others. It takes no memory.
    pub fn enter(&mut self, item: T)
        requires { 1 ≤ self.old.spare }
        ensures items { self.new.items ≡ self.old.items ++ item ∷ [] }
        ensures spare { self.new.spare + 1 ≡ self.old.spare }
    {
        self.items.push_reserved(item);
    }

    /// Keeps the first `n` items, and the room of the others. It takes no memory.
    pub fn cut(&mut self, n: usize)
        ensures items { self.new.items ≡ take n self.old.items }
        ensures spare { self.old.spare ≤ self.new.spare }
    {
        self.items.truncate(n);
    }

    /// Puts another item in the place of one. It takes no memory.
    pub fn set(&mut self, at: usize, item: T)
        requires { at < length self.old.items }
        ensures items { self.new.items ≡ slice_set self.old.items at item }
        ensures spare { self.new.spare ≡ self.old.spare }
    {
        self.items[at] = item;
    }
}
