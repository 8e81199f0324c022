//! The parts of statements with the places of their names.

ghost use Rattle.std.specs.Prelude.{◌≡◌, IfOk, OnOk};
ghost use Rattle.xc_text.specs.Places.{placed_term, placed_expression, placed_target, placed_targets, placed_ending};
ghost use Rattle.xc_text.specs.Places.{placed_item, placed_term_into};

use crate::names::Names;
use crate::script::{Expression, Item, NameIndex, Term};
use xc_data::NoMemory;
use xc_tokens::IdentWord;

/// A term with the place of its variable or slot.
#[inline(always)]
pub fn place_term(names: &mut Names, term: &Term<IdentWord>) -> Result<Term<NameIndex>, NoMemory>
    ensures names { OnOk result (names.new ≡ (placed_term names.old term.now).0) }
    ensures placed { IfOk result (λ placed. placed ≡ (placed_term names.old term.now).1) }
{
    match term {
        Term::Number(n) => Ok(Term::Number(*n)),
        Term::Variable(name) => Ok(Term::Variable(names.variable(name)?)),
        Term::Slot(name) => Ok(Term::Slot(names.slot(name)?)),
    }
}

/// An expression with its places.
#[inline(always)]
pub fn place_expression(
    names: &mut Names,
    value: &Expression<IdentWord>,
) -> Result<Expression<NameIndex>, NoMemory>
    ensures names { OnOk result (names.new ≡ (placed_expression names.old value.now).0) }
    ensures placed { IfOk result (λ placed. placed ≡ (placed_expression names.old value.now).1) }
{
    match value {
        Expression::Term(a) => Ok(Expression::Term(place_term(names, a)?)),
        Expression::Sum(a, b) => {
            let a = place_term(names, a)?;
            Ok(Expression::Sum(a, place_term(names, b)?))
        }
        Expression::Difference(a, b) => {
            let a = place_term(names, a)?;
            Ok(Expression::Difference(a, place_term(names, b)?))
        }
    }
}

/// The variable that a reply goes to.
#[inline(always)]
pub fn place_target(
    names: &mut Names,
    into: &Option<IdentWord>,
) -> Result<Option<NameIndex>, NoMemory>
    ensures names { OnOk result (names.new ≡ (placed_target names.old into.now).0) }
    ensures placed { IfOk result (λ placed. placed ≡ (placed_target names.old into.now).1) }
{
    match into {
        Some(name) => Ok(Some(names.variable(name)?)),
        None => Ok(None),
    }
}

/// The variables that two handles go to.
pub fn place_targets(
    names: &mut Names,
    into: &Option<(IdentWord, IdentWord)>,
) -> Result<Option<(NameIndex, NameIndex)>, NoMemory>
    ensures names { OnOk result (names.new ≡ (placed_targets names.old into.now).0) }
    ensures placed { IfOk result (λ placed. placed ≡ (placed_targets names.old into.now).1) }
{
    match into {
        Some((first, second)) => Ok(Some(names.two_variables(first, second)?)),
        None => Ok(None),
    }
}

/// The slot that the end of a late call goes to.
pub fn place_ending(
    names: &mut Names,
    slot: &Option<IdentWord>,
) -> Result<Option<NameIndex>, NoMemory>
    ensures names { OnOk result (names.new ≡ (placed_ending names.old slot.now).0) }
    ensures placed { IfOk result (λ placed. placed ≡ (placed_ending names.old slot.now).1) }
{
    match slot {
        Some(name) => Ok(Some(names.slot(name)?)),
        None => Ok(None),
    }
}

/// A part of the data with the place of its variable or slot.
#[inline(always)]
pub fn place_item(names: &mut Names, item: Item<IdentWord>) -> Result<Item<NameIndex>, NoMemory>
    ensures names { OnOk result (names.new ≡ (placed_item names.old item.entry).0) }
    ensures placed { IfOk result (λ placed. placed ≡ (placed_item names.old item.entry).1) }
{
    match item {
        Item::Literal(bytes) => Ok(Item::Literal(bytes)),
        Item::Bytes(name) => Ok(Item::Bytes(names.variable(&name)?)),
        Item::Digits(term) => Ok(Item::Digits(place_term(names, &term)?)),
    }
}

/// A term, and the variable that a reply goes to.
#[inline(always)]
pub fn place_term_into(
    names: &mut Names,
    term: &Term<IdentWord>,
    into: &Option<IdentWord>,
) -> Result<(Term<NameIndex>, Option<NameIndex>), NoMemory>
    ensures names { OnOk result (names.new ≡ (placed_term_into names.old term.now into.now).0) }
    ensures placed { IfOk result (λ placed. placed ≡ (placed_term_into names.old term.now into.now).1) }
{
    let term = place_term(names, term)?;
    let into = place_target(names, into)?;
    Ok((term, into))
}
