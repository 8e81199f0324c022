ghost use Rattle.std.specs.Prelude.{◌≡◌};
ghost use Rattle.xc_tokens.specs.Views.{lexeme};
ghost use Rattle.xc_tokens.specs.Words.{spells as is_spelled, is_sign as is_sign_of, number as number_of_token, number_spelled};
ghost use Rattle.xc_tokens.specs.Words.{ident as ident_of_token, ident_in, name as name_of_token, name_in};

use crate::numbers::spelled_number;
use crate::spelled::IdentWord;
use crate::token::Token;
use crate::why::Why;
use xc_data::{Ident, Name};

/// The word is spelled so. Most texts are short and known beforehand, so it takes no call to compare them.
#[inline(always)]
pub fn spells(word: &[u8], text: &[u8]) -> bool
    ensures { result ≡ is_spelled word.now text.now }
{
    if word.len() != text.len() {
        return false;
    }
    let mut n = 0;
    while n < text.len() {
        if word[n] != text[n] {
            return false;
        }
        n += 1;
    }
    true
}

/// The token is this sign.
pub fn is_sign(token: &Token, text: &[u8]) -> bool
    ensures { result ≡ is_sign_of (lexeme token.now) text.now }
{
    match token {
        Token::Word(word) => spells(word, text),
        Token::Plain { .. } | Token::Escaped { .. } => false,
    }
}

/// The number that a word spells.
#[inline(always)]
pub fn number_word(word: &[u8]) -> Result<u64, Why>
    ensures { result ≡ number_spelled word.now }
{
    match spelled_number(word) {
        Some(n) => Ok(n),
        None => Err(Why::BadNumber),
    }
}

/// The identifier that a word is.
#[inline(always)]
pub fn ident_word<'a>(word: &'a [u8]) -> Result<IdentWord<'a>, Why>
    ensures { result ≡ ident_in word.now }
{
    match IdentWord::new(word) {
        Some(ident) => Ok(ident),
        None => Err(Why::BadName),
    }
}

fn name_word(word: &[u8]) -> Result<Name, Why>
    ensures { result ≡ name_in word.now }
{
    match Name::new(word) {
        Some(name) => Ok(name),
        None => Err(Why::BadName),
    }
}

/// What is read where a number is due.
pub fn number(token: &Token) -> Result<u64, Why>
    ensures { result ≡ number_of_token (lexeme token.now) }
{
    match token {
        Token::Word(word) => number_word(word),
        Token::Plain { .. } | Token::Escaped { .. } => Err(Why::BadForm),
    }
}

/// What is read where an identifier is due, as it was written.
pub fn ident_token<'a>(token: &Token<'a>) -> Result<IdentWord<'a>, Why>
    ensures { result ≡ ident_of_token (lexeme token.now) }
{
    match token {
        Token::Word(word) => ident_word(word),
        Token::Plain { .. } | Token::Escaped { .. } => Err(Why::BadForm),
    }
}

/// What is read where an identifier is due.
pub fn ident(token: &Token) -> Result<Ident, Why>
    ensures { result ≡ ident_of_token (lexeme token.now) }
{
    let word = ident_token(token)?;
    Ok(word.ident())
}

/// What is read where a file's name is due.
pub fn name(token: &Token) -> Result<Name, Why>
    ensures { result ≡ name_of_token (lexeme token.now) }
{
    match token {
        Token::Word(word) => name_word(word),
        Token::Plain { .. } | Token::Escaped { .. } => Err(Why::BadForm),
    }
}
