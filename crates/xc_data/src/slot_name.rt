ghost use Rattle.std.specs.Prelude.{◌≡◌, IfOk};
ghost use Rattle.std.specs.Option.{option_copied};

use crate::lasting::Leaked;
use crate::{Ident, NoMemory};
use std::alloc::Global;
use std::fmt::{self, Debug, Formatter, Write};
use std::marker::Model;

/// The name of the slot that the end of a call goes to, or none, in a place of its own, which all calls share that name it.
/// Contracts see the name, where there is one.
///
/// The place is never given back, as that of a `SharedName` isn't. An `Option` of a pointer would have 16 bytes.
#[derive(Drop)]
pub struct SlotName {
    name: Leaked<Option<Ident>>,
}

impl Model for SlotName {
    ghost use Rattle.std.specs.Prelude.{List, Option, ℕ};

    ghost Value = { Option (List ℕ) };

    ghost view = { λ a. a.name.value };
}

// One word, so that a call has three.
const _: () = prove!(size_of::<SlotName>() == 8);

impl SlotName {
    /// Puts a name, or none, into a place of its own. `NoMemory` if there is none for it.
    pub fn new(alloc: Global, name: Option<Ident>) -> Result<Self, NoMemory>
        ensures { IfOk result (λ slot. slot ≡ name) }
    {
        let place = Box::new(alloc, name)?;
        Ok(SlotName {
            name: Leaked::of(Box::leak(place)),
        })
    }

    /// The same name. It takes no memory.
    pub fn again(&self) -> Self
        ensures { result ≡ self.now }
    {
        SlotName {
            name: self.name.again(),
        }
    }

    /// The name, where there is one.
    pub fn name(&self) -> Option<&Ident>
        ensures { option_copied result ≡ self.now }
    {
        self.name.get().as_ref()
    }
}

impl Debug for SlotName {
    fn fmt<W: Write>(&self, f: &mut Formatter<W>) -> fmt::Result {
        f.debug_struct("SlotName")
            .field("name", &self.name())
            .finish()
    }
}
