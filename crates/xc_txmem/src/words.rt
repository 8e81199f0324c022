ghost use Rattle.std.specs.Prelude.{◌≡◌, ◌<◌, ℕ, List, length, slice_index, slice_set, IfOk};
ghost use Rattle.xc_txmem.specs.Overlay.{overlaid};

use std::alloc::Global;
use std::marker::Model;
use xc_data::{Items, NoMemory, WordList};

/// The shared words.
#[derive(Drop)]
pub struct Words {
    values: Vec<u64>,
}

impl Model for Words {
    ghost use Rattle.std.specs.Prelude.{List, ℕ};

    ghost Value = { List ℕ };

    ghost view = { λ w. w.values.items };
}

impl Words {
    /// Words with these values, from word 0 on.
    pub fn new(alloc: Global, values: &[u64]) -> Result<Words, NoMemory>
        ensures { IfOk result (λ words. words ≡ values.now) }
    {
        Ok(Words {
            values: Vec::from_slice(alloc, values)?,
        })
    }

    /// How many words there are, with stores laid over them or without.
    pub fn count(&self) -> usize
        ensures value { result ≡ length self.now }
        ensures overlaid { (stores : List (ℕ × ℕ)) → length (overlaid self.now stores) ≡ result }
    {
        self.values.len()
    }

    /// The value of a word.
    pub fn get(&self, at: usize) -> u64
        requires { at < length self.now }
        ensures { result ≡ slice_index self.now at }
    {
        self.values[at]
    }

    /// A word takes a value. It takes no memory.
    pub fn set(&mut self, at: usize, value: u64)
        requires { at < length self.old }
        ensures { self.new ≡ slice_set self.old at value }
    {
        self.values[at] = value;
    }

    /// The values, without a copy. It takes no memory.
    pub fn list(self) -> WordList
        ensures { result ≡ self }
    {
        Items::from_vec(self.values)
    }
}
