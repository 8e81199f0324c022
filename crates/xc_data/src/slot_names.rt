ghost use Rattle.std.specs.Prelude.{◌≡◌, ◌++◌, ◌∷◌, [], length, slice_get, None, IfOk, OnOk, OnErr};

use crate::{Ident, NoMemory, SlotName};
use std::alloc::Global;
use std::marker::Model;

/// The names of slots, in the order of their places, and for each one the name that calls share; for calls that name none,
/// what stands for none. Contracts see the names.
#[derive(Drop)]
pub struct SlotNames {
    none: SlotName,
    idents: Vec<Ident>,
    shared: Vec<SlotName>,
}

impl Model for SlotNames {
    ghost use Rattle.std.specs.Prelude.{◌≡◌, List, ℕ, None, Some, map};

    ghost Value = { List (List ℕ) };

    ghost view = { λ a. a.idents.items };

    ghost invariant = { λ a. (a.none ≡ None) × (a.shared.items ≡ map Some a.idents.items) };
}

impl SlotNames {
    /// No name. It takes memory for what stands for none.
    pub fn new(alloc: Global) -> Result<SlotNames, NoMemory>
        ensures { IfOk result (λ names. names ≡ []) }
    {
        Ok(SlotNames {
            none: SlotName::new(alloc, None)?,
            idents: Vec::new(alloc),
            shared: Vec::new(alloc),
        })
    }

    /// The names themselves.
    pub fn as_slice(&self) -> &[Ident]
        ensures { result.now ≡ self.now }
    {
        self.idents.as_slice()
    }

    /// How many there are.
    pub fn len(&self) -> usize
        ensures { result ≡ length self.now }
    {
        self.idents.len()
    }

    /// One more name.
    pub fn push(&mut self, name: Ident) -> Result<(), NoMemory>
        ensures ok { OnOk result (self.new ≡ self.old ++ name ∷ []) }
        ensures err { OnErr result (self.new ≡ self.old) }
    {
        let shared = SlotName::new(*self.shared.allocator(), Some(name))?;
        self.shared.reserve(1)?;
        self.idents.push(name)?;
        self.shared.push_reserved(shared);
        Ok(())
    }

    /// The name at a place, as calls share it; none where there is no such place. It takes no memory.
    pub fn at(&self, at: usize) -> SlotName
        ensures { result ≡ slice_get self.now at }
    {
        match self.shared.get(at) {
            Some(name) => name.again(),
            None => self.none.again(),
        }
    }

    /// What stands for no name. It takes no memory.
    pub fn none(&self) -> SlotName
        ensures { result ≡ None }
    {
        self.none.again()
    }

    /// The same names, shared.
    pub fn copied(&self, alloc: Global) -> Result<SlotNames, NoMemory>
        ensures { IfOk result (λ copy. copy ≡ self.now) }
    {
        let mut shared = Vec::with_capacity(alloc, self.shared.len())?;
        for name in &self.shared {
            shared.push(name.again())?;
        }
        Ok(SlotNames {
            none: self.none.again(),
            idents: self.idents.to_vec(alloc)?,
            shared,
        })
    }

    /// No name is left. It takes no memory.
    pub fn clear(&mut self)
        ensures { self.new ≡ [] }
    {
        self.idents.clear();
        self.shared.clear();
    }
}
