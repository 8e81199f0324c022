ghost use Rattle.std.specs.Prelude.{◌≡◌, None, IfOk, OnErr};
ghost use Rattle.std.specs.FinMap as map;

use std::alloc::Global;
use std::marker::Model;
use xc_data::{Name, NoMemory, SharedName, SlotName};
use xc_maps::NameMap;

/// How many names have a place at most, since no place is ever given back.
pub const MOST_NAMES: u32 = 65_536;

/// Why a name has no place.
#[derive(Clone, Copy, Debug)]
pub enum NotPlaced {
    /// As many as may have a place have one.
    Full,
    NoMemory,
}

impl From<NoMemory> for NotPlaced {
    ghost use Rattle.std.specs.Prelude.{◌≡◌};
    ghost use Rattle.xc_names.specs.declared.names.NotPlaced.TheVariants as why;

    ghost from_gives = { λ _ e. e ≡ why.NoMemory };

    fn from(_: NoMemory) -> Self {
        NotPlaced::NoMemory
    }
}

/// Names, each of which has one place, however often it is asked for. Contracts see them with their places.
#[derive(Drop)]
pub struct Names {
    placed: NameMap<SharedName>,
    // How many there are.
    count: u32,
    // The name of no slot has its place too.
    slot: SlotName,
}

impl Model for Names {
    ghost use Rattle.std.specs.Prelude.{◌≡◌, ◌≤◌, List, ℕ, None};
    ghost use Rattle.std.specs.FinMap as map;
    ghost use Rattle.xc_maps.specs.Keys.{name_cmp, coded_name};
    ghost use Rattle.xc_names.specs.Places.{AreTheirOwn};

    ghost Value = { map.FinMap name_cmp (List ℕ) };

    ghost coded = { map.code coded_name coded_name };

    ghost view = { λ a. a.placed };

    ghost invariant = { λ a. AreTheirOwn a.placed × (a.count ≤ 65536) × (a.slot ≡ None) };
}

impl Names {
    /// No name has a place.
    pub fn new(alloc: Global) -> Result<Names, NoMemory>
        ensures { IfOk result (λ names. names ≡ map.empty) }
    {
        Ok(Names {
            placed: NameMap::new(alloc),
            count: 0,
            slot: SlotName::new(alloc, None)?,
        })
    }

    /// The name of no slot, for a late call whose end nobody asks for. It takes no memory.
    pub fn no_slot(&self) -> SlotName
        ensures { result ≡ None }
    {
        self.slot.again()
    }

    /// The place of a name: the one that it has, or else a new one.
    pub fn place(&mut self, alloc: Global, name: Name) -> Result<SharedName, NotPlaced>
        ensures ok { IfOk result (λ shared. shared ≡ name) }
        ensures err { OnErr result (self.new ≡ self.old) }
    {
        if let Some(shared) = self.placed.get(name) {
            return Ok(shared.again());
        }
        if self.count == MOST_NAMES {
            return Err(NotPlaced::Full);
        }
        let shared = SharedName::new(alloc, name)?;
        self.placed.insert(name, shared.again())?;
        self.count += 1;
        Ok(shared)
    }
}
