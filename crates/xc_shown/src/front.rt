ghost use Rattle.std.specs.Prelude.{◌≡◌, [], ◌∷◌, OnOk, IfOk};

use std::alloc::Global;
use std::marker::Model;
use xc_data::{Items, NoMemory};

/// A list that grows at its front, which contracts see as one.
#[derive(Drop)]
pub struct FrontList<T> {
    // from the last one on
    items: Vec<T>,
}

impl<T> Model for FrontList<T> {
    ghost use Rattle.std.specs.Prelude.{List, reverse};

    ghost Value = { List T };

    ghost view = { λ a. reverse a.items.items };
}

impl<T> FrontList<T> {
    /// An empty list. It takes no memory.
    pub fn new(alloc: Global) -> Self
        ensures { result ≡ [] }
    {
        FrontList {
            items: Vec::new(alloc),
        }
    }
}

impl<T> FrontList<T> {
    /// All items, in the room that they have.
    pub fn into_items(self) -> Items<T>
        ensures { result ≡ self }
    {
        let mut items = self.items;
        items.reverse();
        Items::from_vec(items)
    }
}

impl<T: Drop> FrontList<T> {
    /// One item more, before the others.
    pub fn put(&mut self, item: T) -> Result<(), NoMemory>
        ensures { OnOk result (self.new ≡ item ∷ self.old) }
    {
        Ok(self.items.push(item)?)
    }

    /// Takes all items, each moved once, into a list with room for no more. The room that they had here is kept.
    pub fn take(&mut self, alloc: Global) -> Result<Items<T>, NoMemory>
        ensures items { IfOk result (λ items. items ≡ self.old) }
        ensures left { OnOk result (self.new ≡ []) }
    {
        let mut items = Vec::with_capacity(alloc, self.items.len())?;
        while let Some(item) = self.items.pop() {
            items.push(item)?;
        }
        Ok(Items::from_vec(items))
    }
}
