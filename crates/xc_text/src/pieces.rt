ghost use Rattle.std.specs.Prelude.{◌≡◌, [], map, IfOk, IsOk};
ghost use Rattle.xc_text.specs.Places.{placed_data};
ghost use Rattle.xc_text.specs.Pieces.{word_item as word_item_said, item_of, items_of, data_of};
ghost use Rattle.xc_tokens.specs.Answers.{Gives, seen};
ghost use Rattle.xc_tokens.specs.Views.{lexeme};

use crate::limits::MOST_ITEMS;
use crate::names::Names;
use crate::places::place_item;
use crate::script::{Data, Item, NameIndex};
use crate::source::SharedText;
use crate::term::term_word;
use std::alloc::Global;
use xc_data::{Items, MOST_CALL_BYTES, NoMemory};
use xc_tokens::{IdentWord, Stop, Token, Why, beside, ident_word, is_within, repeated};

fn word_item<'a>(word: &'a [u8]) -> Result<Item<IdentWord<'a>>, Why>
    ensures { result ≡ word_item_said word.now }
{
    match word {
        [b'$', name @ ..] => Ok(Item::Bytes(ident_word(name)?)),
        [b'@', term @ ..] => Ok(Item::Digits(term_word(term)?)),
        _ => Err(Why::BadForm),
    }
}

// The reason against an item, if there is one. It makes no bytes.
fn check_item(token: &Token) -> Result<(), Why>
    ensures { result ≡ seen (λ _. tt) (item_of (lexeme token.now)) }
{
    if let Token::Word(word) = token {
        word_item(word)?;
    }
    Ok(())
}

#[inline(always)]
fn item<'a>(
    alloc: Global,
    source: &SharedText,
    token: &Token<'a>,
) -> Result<Item<IdentWord<'a>>, Stop>
    ensures { Gives (λ item. item) result (item_of (lexeme token.now)) }
{
    match token {
        Token::Word(word) => Ok(word_item(word)?),
        Token::Plain { bytes, repeat } => Ok(Item::Literal(source.literal(alloc, bytes, *repeat)?)),
        Token::Escaped { literal, repeat } => {
            let bytes = literal.meant(alloc)?;
            Ok(Item::Literal(repeated(alloc, bytes.as_slice(), *repeat)?))
        }
    }
}

fn check_items(tokens: &[Token]) -> Result<(), Why>
    ensures { result ≡ seen (λ _. tt) (items_of (map lexeme tokens.now)) }
{
    match tokens {
        [] => Ok(()),
        [first, others @ ..] => beside(check_item(first), check_items(others)),
    }
}

// No item yet, and room for `n`.
fn room_for(alloc: Global, n: usize) -> Result<Data<NameIndex>, NoMemory>
    ensures { IfOk result (λ items. items ≡ []) }
{
    Ok(Items::from_vec(Vec::with_capacity(alloc, n)?))
}

#[inline(always)]
fn items(
    alloc: Global,
    source: &SharedText,
    names: &mut Names,
    tokens: &[Token],
) -> Result<Data<NameIndex>, Stop>
    requires good { IsOk (items_of (map lexeme tokens.now)) }
    ensures { Gives (λ items. (names.new, items)) result (seen (placed_data names.old) (items_of (map lexeme tokens.now))) }
{
    let mut items = room_for(alloc, tokens.len())?;
    for token in tokens {
        let item = item(alloc, source, token)?;
        items.push(place_item(names, item)?)?;
    }
    Ok(items)
}

/// The reason against the data of a line that writes, if there is one.
#[inline(always)]
pub fn check_data(tokens: &[Token]) -> Result<(), Why>
    ensures { result ≡ seen (λ _. tt) (data_of (map lexeme tokens.now)) }
{
    if tokens.is_empty() || tokens.len() > MOST_ITEMS {
        return Err(Why::BadForm);
    }
    check_items(tokens)?;
    if !is_within(MOST_CALL_BYTES as u32, tokens) {
        return Err(Why::TooMany);
    }
    Ok(())
}

/// The data of a line that writes, with the places of its variables and slots.
#[inline(always)]
pub fn data(
    alloc: Global,
    source: &SharedText,
    names: &mut Names,
    tokens: &[Token],
) -> Result<Data<NameIndex>, Stop>
    requires good { IsOk (data_of (map lexeme tokens.now)) }
    ensures { Gives (λ items. (names.new, items)) result (seen (placed_data names.old) (data_of (map lexeme tokens.now))) }
{
    items(alloc, source, names, tokens)
}
