ghost use Rattle.std.specs.Prelude.{◌≡◌, ◌<◌, ◌^◌, ◌++◌, ◌∷◌, [], length, map, IfOk, OnOk};
ghost use Rattle.std.specs.List.{list_all, repeat as repeat_of_list};
ghost use Rattle.xc_tokens.specs.Literals.{is_literal as is_literal_token, given, literal_bytes as joined_literals};
ghost use Rattle.xc_tokens.specs.Literals.{is_within as is_within_bound};
ghost use Rattle.xc_tokens.specs.Literals.{contents as contents_said};
ghost use Rattle.xc_tokens.specs.Views.{lexeme};

use crate::token::Token;
use std::alloc::Global;
use xc_data::{Chunk, NoMemory};

fn is_literal(token: &Token) -> bool
    ensures { result ≡ is_literal_token (lexeme token.now) }
{
    match token {
        Token::Word(_) => false,
        Token::Plain { .. } | Token::Escaped { .. } => true,
    }
}

/// No token is a word.
pub fn are_literals(tokens: &[Token]) -> bool
    ensures { result ≡ list_all is_literal_token (map lexeme tokens.now) }
{
    for token in tokens {
        if !is_literal(token) {
            return false;
        }
    }
    true
}

// How many bytes a token gives as a literal.
fn size(token: &Token) -> u128
    ensures value { result ≡ length (given (lexeme token.now)) }
    ensures bound { result < 2 ^ 96 }
{
    match token {
        Token::Word(_) => 0,
        Token::Plain { bytes, repeat } => *repeat as u128 * bytes.len() as u128,
        Token::Escaped { literal, repeat } => *repeat as u128 * literal.len() as u128,
    }
}

/// The literals among the tokens give at most `most` bytes. It makes none of them.
pub fn is_within(most: u32, tokens: &[Token]) -> bool
    ensures { result ≡ is_within_bound most (map lexeme tokens.now) }
{
    let mut total: u128 = 0;
    for token in tokens {
        total += size(token);
        if total > most as u128 {
            return false;
        }
    }
    true
}

// Adds a byte `times` times.
fn add_byte(bytes: &mut Vec<u8>, byte: u8, times: u32) -> Result<(), NoMemory>
    ensures { OnOk result (bytes.new.items ≡ bytes.old.items ++ repeat_of_list times (byte ∷ [])) }
{
    bytes.resize(bytes.len() + times as usize, byte)?;
    Ok(())
}

// Adds a piece `times` times.
fn add_repeated(bytes: &mut Vec<u8>, piece: &[u8], times: u32) -> Result<(), NoMemory>
    ensures { OnOk result (bytes.new.items ≡ bytes.old.items ++ repeat_of_list times piece.now) }
{
    if piece.is_empty() {
        return Ok(());
    }
    if let [byte] = piece {
        return add_byte(bytes, *byte, times);
    }
    for _ in 0..times {
        bytes.extend_from_slice(piece)?;
    }
    Ok(())
}

/// A piece `times` times. Most are there once, and there is just the room for one.
pub fn repeated(alloc: Global, piece: &[u8], times: u32) -> Result<Chunk, NoMemory>
    ensures { IfOk result (λ chunk. chunk ≡ repeat_of_list times piece.now) }
{
    let mut bytes = Vec::with_capacity(alloc, piece.len())?;
    add_repeated(&mut bytes, piece, times)?;
    Chunk::from_vec(bytes)
}

fn add_token(alloc: Global, bytes: &mut Vec<u8>, token: &Token) -> Result<(), NoMemory>
    ensures { OnOk result (bytes.new.items ≡ bytes.old.items ++ given (lexeme token.now)) }
{
    match token {
        Token::Word(_) => Ok(()),
        Token::Plain {
            bytes: piece,
            repeat,
        } => add_repeated(bytes, piece, *repeat),
        Token::Escaped { literal, repeat } => {
            let piece = literal.meant(alloc)?;
            add_repeated(bytes, piece.as_slice(), *repeat)
        }
    }
}

fn joined(alloc: Global, tokens: &[Token]) -> Result<Chunk, NoMemory>
    ensures { IfOk result (λ chunk. chunk ≡ joined_literals (map lexeme tokens.now)) }
{
    let mut bytes = Vec::new(alloc);
    for token in tokens {
        add_token(alloc, &mut bytes, token)?;
    }
    Chunk::from_vec(bytes)
}

/// The bytes of all literals, none where there are more than `most`.
pub fn contents(alloc: Global, most: u32, tokens: &[Token]) -> Result<Option<Chunk>, NoMemory>
    ensures { IfOk result (λ bytes. bytes ≡ contents_said most (map lexeme tokens.now)) }
{
    if !is_within(most, tokens) {
        return Ok(None);
    }
    Ok(Some(joined(alloc, tokens)?))
}
