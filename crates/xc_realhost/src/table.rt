ghost use Rattle.std.specs.Prelude.{◌<◌, OnOk};
ghost use Rattle.std.specs.HashMap.{IsEmpty, spare};

use std::alloc::Global;
use std::collections::HashMap;
use xc_data::{NoMemory, Num};

/// Objects by their numbers.
#[derive(Drop)]
pub(crate) struct Table<T: Drop> {
    rows: HashMap<Num, T>,
}

impl<T: Drop> Table<T> {
    pub(crate) fn new(alloc: Global) -> Table<T>
        ensures { IsEmpty result.rows }
    {
        Table {
            rows: HashMap::new(alloc),
        }
    }

    pub(crate) fn get(&self, num: Num) -> Option<&T> {
        self.rows.get(&num)
    }

    pub(crate) fn of(&mut self, num: Num) -> Option<&mut T> {
        self.rows.get_mut(&num)
    }

    // Makes room for one more.
    pub(crate) fn reserve(&mut self) -> Result<(), NoMemory>
        ensures room { OnOk result (0 < spare self.new.rows) }
    {
        Ok(self.rows.reserve(1)?)
    }

    // Adds an object to the room that was made, so that this takes no memory.
    pub(crate) fn add(&mut self, num: Num, value: T)
        requires room { 0 < spare self.old.rows }
    {
        let added = self.rows.insert(num, value);
        prove!(added.is_ok());
    }

    pub(crate) fn remove(&mut self, num: Num) -> Option<T> {
        self.rows.remove(&num)
    }
}
