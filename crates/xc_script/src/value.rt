ghost use Rattle.std.specs.Prelude.{◌≡◌, ◌≤◌, ◌^◌, IfOk, OnOk, None, length, replicate};
ghost use Rattle.std.specs.Option.{option_copied};
ghost use Rattle.xc_script.specs.JobSlots.{slot_number, unset};
ghost use Rattle.xc_script.specs.Asking.{name_of_slot};
ghost use Rattle.xc_script.specs.Walks.{set_to};
ghost use Rattle.xc_script.specs.Values.{value_at};
ghost use Rattle.xc_script.specs.Ask.{with_handles};
ghost use Rattle.xc_script.specs.Position.{nothing_kept};
ghost use Rattle.xc_script.specs.Slots.{with_slot_end};

use crate::slots::Slots;
use crate::values::Values;
use std::alloc::Global;
use std::marker::Model;
use std::mem;
use xc_data::{Chunk, Ident, LateEnd, NoMemory, SlotName, SlotNames};
use xc_text::NameIndex;

/// What a variable holds.
#[derive(Clone, Drop)]
pub enum Value {
    Number(u64),
    Bytes(Chunk),
    Handle(u16),
}

/// What a job knows: what its variables hold, and its slots.
#[derive(Drop)]
pub struct Variables {
    slots: Slots,
    values: Values,
}

impl Model for Variables {
    ghost use Rattle.xc_script.specs.Values.{Variables as PlainVariables};
    ghost use Rattle.xc_script.specs.Position.{coded_variables};

    ghost Value = { PlainVariables };

    ghost coded = { coded_variables };

    ghost view = { λ v. record { values = v.values; slots = v.slots } };
}

impl Variables {
    /// `variables` variables that hold nothing, and each of these slots unset.
    pub fn unset(alloc: Global, variables: usize, slots: &SlotNames) -> Result<Variables, NoMemory>
        ensures { IfOk result (λ known. known ≡ record { values = replicate variables None; slots = unset slots.now }) }
    {
        Ok(Variables {
            slots: Slots::unset(alloc, slots)?,
            values: Values::unset(alloc, variables)?,
        })
    }

    /// The same values, whose bytes are shared, and each of these slots unset.
    pub fn handed_on(&self, alloc: Global, slots: &SlotNames) -> Result<Variables, NoMemory>
        ensures { IfOk result (λ known. known ≡ record { values = self.now.values; slots = unset slots.now }) }
    {
        Ok(Variables {
            slots: Slots::unset(alloc, slots)?,
            values: self.values.copied()?,
        })
    }

    /// What a variable holds.
    pub fn get(&self, at: NameIndex) -> Option<&Value>
        ensures { option_copied result ≡ value_at self.now.values at }
    {
        self.values.get(at)
    }

    /// What a slot counts as.
    pub fn slot(&self, at: NameIndex) -> u64
        ensures { result ≡ slot_number self.now.slots at }
    {
        self.slots.number(at)
    }

    /// The name of a slot, where one is wanted. It takes no memory.
    pub fn slot_name(&self, slot: Option<NameIndex>) -> SlotName
        ensures { result ≡ name_of_slot self.now slot }
    {
        match slot {
            Some(at) => self.slots.name(at),
            None => self.slots.no_name(),
        }
    }

    /// A variable takes a value, or loses its own where there is none. It takes no memory.
    pub fn set(&mut self, at: NameIndex, value: Option<Value>)
        ensures { self.new ≡ set_to self.old at value }
    {
        self.values.set(at, value);
    }

    /// These variables hold the handles from 0 on. It takes no memory.
    pub fn hold(&mut self, places: &[NameIndex])
        requires { length places.now ≤ 2 ^ 16 }
        ensures { self.new ≡ record self.old { values = with_handles places.now 0 self.old.values } }
    {
        self.values.hold(places);
    }

    /// A slot takes an end, where one is named. It takes no memory.
    pub fn end(&mut self, slot: Option<Ident>, end: LateEnd)
        ensures { self.new ≡ with_slot_end self.old slot end }
    {
        if let Some(name) = slot {
            self.slots.set(name, end);
        }
    }

    /// Puts what the variables hold into a list. Their bytes are shared.
    #[inline(always)]
    pub fn keep_values(&self, kept: &mut Values) -> Result<(), NoMemory>
        ensures { OnOk result (kept.new ≡ self.now.values) }
    {
        kept.share(&self.values)
    }

    /// The variables hold this, and the slots stay. The list of what they held is handed back. It takes no memory.
    pub fn take_values(&mut self, values: Values) -> Values
        ensures { self.new ≡ record self.old { values = values } }
    {
        mem::replace(&mut self.values, values)
    }

    /// No variable is left, and no slot. It takes no memory.
    pub fn clear(&mut self)
        ensures { self.new ≡ nothing_kept }
    {
        self.slots.clear();
        self.values.clear();
    }
}
