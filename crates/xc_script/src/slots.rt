ghost use Rattle.std.specs.Prelude.{◌≡◌, None, IfOk, nat_eq, position};
ghost use Rattle.std.specs.Cmp.Lexicographic.{pointwise};
ghost use Rattle.xc_script.specs.JobSlots.{end_number, no_slots, slot_number, slot_name, unset, with_slot};

use std::alloc::Global;
use std::marker::Model;
use xc_data::{Ident, LateEnd, NoMemory, SlotName, SlotNames};

/// A job's slots: their names, and how the last late call with each of them ended. A slot that no late call has set is
/// as one whose call was done.
#[derive(Drop)]
pub struct Slots {
    names: SlotNames,
    ends: Vec<LateEnd>,
}

impl Model for Slots {
    ghost use Rattle.xc_script.specs.JobSlots.{Slots as PlainSlots, coded_slots};

    ghost Value = { PlainSlots };

    ghost coded = { coded_slots };

    ghost view = { λ s. record { names = s.names; ends = s.ends.items } };
}

// An end as a number.
fn end_number(end: &LateEnd) -> u64
    ensures { result ≡ end_number end.now }
{
    match end {
        LateEnd::Done => 0,
        LateEnd::Full(_) => 1,
        LateEnd::NoName => 2,
        LateEnd::NoScript => 3,
        LateEnd::Fault(_) => 4,
        LateEnd::NoMemory(_) => 5,
        LateEnd::Shut => 6,
    }
}

fn place_of(names: &[Ident], name: Ident) -> Option<usize>
    ensures { result ≡ position (λ other. pointwise nat_eq other name) names.now }
{
    names.iter().position(|other| *other == name)
}

impl Slots {
    /// The slots of these names, each unset. Room for their ends is made here, once for the whole job.
    pub fn unset(alloc: Global, names: &SlotNames) -> Result<Slots, NoMemory>
        ensures { IfOk result (λ slots. slots ≡ unset names.now) }
    {
        Ok(Slots {
            names: names.copied(alloc)?,
            ends: vec![in alloc; LateEnd::Done; names.len()]?,
        })
    }

    /// A slot takes an end; a name that isn't among the slots is passed over. It takes no memory.
    pub fn set(&mut self, name: Ident, end: LateEnd)
        ensures { self.new ≡ with_slot self.old name end }
    {
        let Some(at) = place_of(self.names.as_slice(), name) else {
            return;
        };
        if at < self.ends.len() {
            self.ends[at] = end;
        }
    }

    /// What the slot at a place counts as where a number is wanted: 0 where it is unset or its call was done, 1 for
    /// full, 2 for no name, 3 for no script, 4 for a fault, 5 for no memory and 6 for shut.
    pub fn number(&self, at: u16) -> u64
        ensures { result ≡ slot_number self.now at }
    {
        match self.ends.get(at as usize) {
            Some(end) => end_number(end),
            None => 0,
        }
    }

    /// The name of the slot at a place, as calls share it. It takes no memory.
    pub fn name(&self, at: u16) -> SlotName
        ensures { result ≡ slot_name self.now at }
    {
        self.names.at(at as usize)
    }

    /// What stands for no slot. It takes no memory.
    pub fn no_name(&self) -> SlotName
        ensures { result ≡ None }
    {
        self.names.none()
    }

    /// No slot is left. It takes no memory.
    pub fn clear(&mut self)
        ensures { self.new ≡ no_slots }
    {
        self.names.clear();
        self.ends.clear();
    }
}
