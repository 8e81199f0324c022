ghost use Rattle.std.specs.Prelude.{◌≡◌, ◌++◌, ◌∷◌, [], length, IfOk, OnOk, IsTrue};
ghost use Rattle.xc_data.specs.Spelling.{is_ident};
ghost use Rattle.xc_text.specs.Places.{name_place, name_taken, variable, slot, placed_two};
ghost use Rattle.xc_text.specs.Said.{no_names};
ghost use Rattle.xc_text.specs.Steps.{are_few};

use crate::limits::MOST_NAMES;
use crate::script::NameIndex;
use std::alloc::Global;
use std::marker::Model;
use xc_data::{Ident, IdentList, Items, NoMemory, SlotNames};
use xc_tokens::{IdentWord, spells};

/// The names of a script's variables and of its slots, each once.
#[derive(Drop)]
pub struct Names {
    pub variables: IdentList,
    pub slots: SlotNames,
}

impl Model for Names {
    ghost use Rattle.xc_text.specs.Said.{Names as PlainNames};

    ghost Value = { PlainNames };

    ghost view = { λ a. record { variables = a.variables; slots = a.slots } };
}

impl Names {
    /// No name yet.
    pub fn new(alloc: Global) -> Result<Self, NoMemory>
        ensures { IfOk result (λ names. names ≡ no_names) }
    {
        Ok(Names {
            variables: Items::new(alloc),
            slots: SlotNames::new(alloc)?,
        })
    }

    /// There are no more of either kind than a script may have.
    pub fn are_few(&self) -> bool
        ensures { result ≡ are_few self.now }
    {
        self.variables.len() <= MOST_NAMES && self.slots.len() <= MOST_NAMES
    }
}

// The place of a name, where it has one. Each line that is read asks for some, from many places, so it stands by itself.
#[inline(never)]
fn place_of(names: &[Ident], name: &[u8]) -> Option<usize>
    ensures { result ≡ name_place names.now name.now }
{
    names
        .iter()
        .position(|other| spells(other.as_slice(), name))
}

// A name, whose bytes are those of an identifier.
fn ident_of(name: &[u8]) -> Ident
    requires { IsTrue (is_ident name.now) }
    ensures { result ≡ name.now }
{
    match Ident::new(name) {
        Some(ident) => ident,
        None => unreachable!(),
    }
}

// A variable that is new takes the next place. It is the rare case.
#[cold]
fn add_variable(names: &mut IdentList, name: &[u8]) -> Result<usize, NoMemory>
    requires { IsTrue (is_ident name.now) }
    ensures names { OnOk result (names.new ≡ names.old ++ name.now ∷ []) }
    ensures at { IfOk result (λ at. at ≡ length names.old) }
{
    let at = names.len();
    names.push(ident_of(name))?;
    Ok(at)
}

// A slot that is new takes the next place.
#[cold]
fn add_slot(names: &mut SlotNames, name: &[u8]) -> Result<usize, NoMemory>
    requires { IsTrue (is_ident name.now) }
    ensures names { OnOk result (names.new ≡ names.old ++ name.now ∷ []) }
    ensures at { IfOk result (λ at. at ≡ length names.old) }
{
    let at = names.len();
    names.push(ident_of(name))?;
    Ok(at)
}

// The place of a variable, which takes the next one where it has none.
#[inline(always)]
fn take_variable(names: &mut IdentList, name: &IdentWord) -> Result<usize, NoMemory>
    ensures names { OnOk result (names.new ≡ (name_taken names.old name.now).0) }
    ensures at { IfOk result (λ at. at ≡ (name_taken names.old name.now).1) }
{
    let name = name.bytes();
    match place_of(names.as_slice(), name) {
        Some(at) => Ok(at),
        None => add_variable(names, name),
    }
}

// The place of a slot, which takes the next one where it has none.
#[inline(always)]
fn take_slot(names: &mut SlotNames, name: &IdentWord) -> Result<usize, NoMemory>
    ensures names { OnOk result (names.new ≡ (name_taken names.old name.now).0) }
    ensures at { IfOk result (λ at. at ≡ (name_taken names.old name.now).1) }
{
    let name = name.bytes();
    match place_of(names.as_slice(), name) {
        Some(at) => Ok(at),
        None => add_slot(names, name),
    }
}

// A draft stops long before there are more names than places.
fn narrow(at: usize) -> Result<NameIndex, NoMemory>
    ensures { IfOk result (λ place. place ≡ at) }
{
    if at > u16::MAX as usize {
        return Err(NoMemory);
    }
    Ok(at as u16)
}

impl Names {
    /// The place of a variable.
    #[inline(always)]
    pub fn variable(&mut self, name: &IdentWord) -> Result<NameIndex, NoMemory>
        ensures names { OnOk result (self.new ≡ (variable self.old name.now).0) }
        ensures at { IfOk result (λ at. at ≡ (variable self.old name.now).1) }
    {
        narrow(take_variable(&mut self.variables, name)?)
    }

    /// The places of two variables, the first one first.
    pub fn two_variables(
        &mut self,
        first: &IdentWord,
        second: &IdentWord,
    ) -> Result<(NameIndex, NameIndex), NoMemory>
        ensures names { OnOk result (self.new ≡ (placed_two self.old first.now second.now).0) }
        ensures at { IfOk result (λ at. at ≡ (placed_two self.old first.now second.now).1) }
    {
        let first = self.variable(first)?;
        let second = self.variable(second)?;
        Ok((first, second))
    }

    /// The place of a slot.
    #[inline(always)]
    pub fn slot(&mut self, name: &IdentWord) -> Result<NameIndex, NoMemory>
        ensures names { OnOk result (self.new ≡ (slot self.old name.now).0) }
        ensures at { IfOk result (λ at. at ≡ (slot self.old name.now).1) }
    {
        narrow(take_slot(&mut self.slots, name)?)
    }
}
