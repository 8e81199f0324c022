ghost use Rattle.std.specs.Prelude.{◌≡◌, false, not, ◌≤◌, ◌<◌, ◌+◌, ◌==◌, ◌||◌, ◌∷◌, take, drop, length, map, option_map, ok_or};
ghost use Rattle.std.specs.Prelude.{IfSome, IfOk};
ghost use Rattle.xc_tokens.specs.declared.why.Why.TheVariants.{BadLiteral};
ghost use Rattle.xc_tokens.specs.Answers.{Gives, seen};
ghost use Rattle.std.specs.List.{prefix_len};
ghost use Rattle.xc_tokens.specs.Quoted.{is_itself};
ghost use Rattle.xc_tokens.specs.Tokens.{Word, is_blank, past_blanks as behind_blanks, run_len as length_of_run};
ghost use Rattle.xc_tokens.specs.Tokens.{unquoted_run_len, repeat_of, repeat_from};
ghost use Rattle.xc_tokens.specs.Tokens.{literal_from, with_repeat, word_from, token_at, with_next, tokens_of};
ghost use Rattle.xc_tokens.specs.Front.{ReadOn};
ghost use Rattle.xc_tokens.specs.Views.{lexeme};

use crate::escaped::Escaped;
use crate::front::Front;
use crate::limits::{MOST_LITERAL_BYTES, MOST_REPEAT};
use crate::lines::TextLine;
use crate::numbers::spelled_number;
use crate::why::{Stop, Why};
use std::simd::prelude::*;
use xc_data::NoMemory;
use xc_lanes::{ByteKind, LANES, first_set, front_len};

/// A token of a line.
#[derive(Debug, Drop)]
pub enum Token<'a> {
    Word(&'a [u8]),
    /// A literal without an escape: its bytes as they stand in the line, and how often they are meant.
    Plain { bytes: &'a [u8], repeat: u32 },
    /// A literal with escapes, and how often it is meant.
    Escaped { literal: Escaped<'a>, repeat: u32 },
}

// Most bytes of a line are no blank, and the first test tells of them.
fn is_blank_byte(b: u8) -> bool
    ensures { result ≡ is_blank b }
{
    if b > b' ' {
        return false;
    }
    b == b' ' || b == b'\t'
}

// A byte that a word goes on with: no blank and no quote. Of most bytes the first test tells.
fn is_plain_byte(b: u8) -> bool
    ensures { result ≡ not (is_blank b || (b == 34)) }
{
    if b > b'"' {
        return true;
    }
    !is_blank_byte(b) && b != b'"'
}

// A byte that a word begins with, where no blank stands: no `#` and no quote.
fn opens_word(b: u8) -> bool
    ensures { result ≡ not ((b == 35) || (b == 34)) }
{
    if b > b'#' {
        return true;
    }
    b != b'#' && b != b'"'
}

fn past_blanks(bytes: &[u8]) -> &[u8]
    ensures behind { result.now ≡ behind_blanks bytes.now }
    ensures fewer { length result.now ≤ length bytes.now }
{
    let mut rest = bytes;
    while let [b, behind @ ..] = rest {
        if !is_blank_byte(*b) {
            return rest;
        }
        rest = behind;
    }
    rest
}

// How many bytes stand before the next blank.
fn run_len(bytes: &[u8]) -> usize
    ensures value { result ≡ length_of_run bytes.now }
    ensures bound { result ≤ length bytes.now }
{
    let mut n = 0;
    while n < bytes.len() {
        if is_blank_byte(bytes[n]) {
            return n;
        }
        n += 1;
    }
    n
}

// How many bytes stand before the next blank; none where a quote is among them.
fn unquoted_run(bytes: &[u8]) -> Option<usize>
    ensures value { result ≡ unquoted_run_len bytes.now }
    ensures bound { IfSome result (λ n. n ≤ length bytes.now) }
{
    let mut n = 0;
    while n < bytes.len() {
        if !is_plain_byte(bytes[n]) {
            return if bytes[n] == b'"' { None } else { Some(n) };
        }
        n += 1;
    }
    Some(n)
}

fn repeat_count(bytes: &[u8]) -> Option<u32>
    ensures { result ≡ repeat_of bytes.now }
{
    match spelled_number(bytes) {
        Some(n) if n <= MOST_REPEAT => Some(n as u32),
        _ => None,
    }
}

// The repeat, and what stands after it, where a literal was closed before the bytes.
fn past_repeat(bytes: &[u8]) -> Option<(u32, &[u8])>
    ensures value { option_map (λ p. (p.0, p.1.now)) result ≡ repeat_from bytes.now }
    ensures fewer { IfSome result (λ p. length p.1.now ≤ length bytes.now) }
{
    let [b, behind @ ..] = bytes else {
        return Some((1, bytes));
    };
    if is_blank_byte(*b) {
        return Some((1, bytes));
    }
    if *b != b'*' {
        return None;
    }
    let n = run_len(behind);
    let repeat = repeat_count(&behind[..n])?;
    Some((repeat, &behind[n..]))
}

// The bytes of a literal that mean themselves.
struct LiteralBytes;

impl ByteKind for LiteralBytes {
    ghost has = { is_itself };

    fn is(byte: u8) -> bool {
        byte != b'"' && byte != b'\\'
    }

    fn first_run(bytes: &[u8]) -> usize {
        let first = u8x16::from_slice(bytes);
        let stops = first.simd_eq(u8x16::splat(b'"')) | first.simd_eq(u8x16::splat(b'\\'));
        first_set(stops.to_bitmask())
    }
}

// A literal without an escape whose first bytes are those, and what stands after it.
fn plain_literal<'a>(bytes: &'a [u8], closed: &'a [u8]) -> Option<(Token<'a>, &'a [u8])>
    ensures value { ok_or (option_map (λ p. (lexeme p.0, p.1.now)) result) BadLiteral ≡ with_repeat (bytes.now, closed.now) }
    ensures fewer { IfSome result (λ p. length p.1.now ≤ length closed.now) }
{
    if bytes.len() > MOST_LITERAL_BYTES {
        return None;
    }
    let (repeat, behind) = past_repeat(closed)?;
    Some((Token::Plain { bytes, repeat }, behind))
}

// A literal whose opening quote stands before the bytes, and what stands after it.
fn escaped_literal<'a>(bytes: &'a [u8]) -> Option<(Token<'a>, &'a [u8])>
    ensures value { ok_or (option_map (λ p. (lexeme p.0, p.1.now)) result) BadLiteral ≡ literal_from bytes.now }
    ensures fewer { IfSome result (λ p. length p.1.now ≤ length bytes.now) }
{
    let (literal, len, closed) = Escaped::measured(bytes)?;
    if len > MOST_LITERAL_BYTES {
        return None;
    }
    let (repeat, behind) = past_repeat(closed)?;
    Some((Token::Escaped { literal, repeat }, behind))
}

// The same. Most literals have no escape.
fn literal<'a>(bytes: &'a [u8]) -> Option<(Token<'a>, &'a [u8])>
    ensures value { ok_or (option_map (λ p. (lexeme p.0, p.1.now)) result) BadLiteral ≡ literal_from bytes.now }
    ensures fewer { IfSome result (λ p. length p.1.now ≤ length bytes.now) }
{
    let n = front_len::<LiteralBytes>(bytes);
    if n == bytes.len() || bytes[n] != b'"' {
        return escaped_literal(bytes);
    }
    plain_literal(&bytes[..n], &bytes[n + 1..])
}

// How long the word in front is; none where a quote stands within it.
fn word_len(bytes: &[u8]) -> Option<usize>
    requires some { 0 < length bytes.now }
    ensures value { (b : _) (bs : _) → bytes.now ≡ b ∷ bs
        → option_map (λ n. (Word (take n bytes.now), drop n bytes.now)) result ≡ word_from b bs }
    ensures fits { IfSome result (λ n. (0 < n) × (n ≤ length bytes.now)) }
{
    let n = unquoted_run(&bytes[1..])?;
    Some(n + 1)
}

// Reads the literal whose opening quote stands before the bytes, after the tokens so far, and gives what stands
// after it.
fn push_literal<'a>(tokens: &mut Vec<Token<'a>>, bytes: &'a [u8]) -> Result<Option<&'a [u8]>, Stop>
    ensures value { Gives (λ behind. (map lexeme tokens.new.items, option_map (λ b. b.now) behind)) result
        (seen (with_next (map lexeme tokens.old.items)) (seen Some (literal_from bytes.now))) }
    ensures fewer { IfOk result (λ next. IfSome next (λ behind. length behind.now ≤ length bytes.now)) }
{
    let Some((token, behind)) = literal(bytes) else {
        return Err(Stop::Refused(Why::BadLiteral));
    };
    tokens.push(token)?;
    Ok(Some(behind))
}

// Reads the first token after the tokens so far, and gives what stands after it; none where no token is left.
fn push_token<'a>(tokens: &mut Vec<Token<'a>>, bytes: &'a [u8]) -> Result<Option<&'a [u8]>, Stop>
    ensures value { Gives (λ behind. (map lexeme tokens.new.items, option_map (λ b. b.now) behind)) result
        (seen (with_next (map lexeme tokens.old.items)) (token_at (behind_blanks bytes.now))) }
    ensures fewer { IfOk result (λ next. IfSome next (λ behind. length behind.now < length bytes.now)) }
{
    let start = past_blanks(bytes);
    let [first, behind @ ..] = start else {
        return Ok(None);
    };
    if !opens_word(*first) {
        if *first == b'#' {
            return Ok(None);
        }
        return push_literal(tokens, behind);
    }
    let Some(n) = word_len(start) else {
        return Err(Stop::Refused(Why::BadLiteral));
    };
    tokens.push(Token::Word(&start[..n]))?;
    Ok(Some(&start[n..]))
}

// Reads the words in front of a line, and gives what stands after them. Where few bytes of the text are left it reads none.
fn push_front<'a>(tokens: &mut Vec<Token<'a>>, line: &TextLine<'a>) -> Result<&'a [u8], NoMemory>
    ensures fewer { IfOk result (λ rest. length rest.now ≤ length line.now) }
    ensures read { IfOk result (λ rest. ReadOn (map lexeme tokens.old.items) line.now (map lexeme tokens.new.items) rest.now) }
{
    let text = line.text();
    let n = line.len();
    if text.len() < LANES {
        return Ok(&text[..n]);
    }
    let at = Front::new(text, n).push_words(tokens)?;
    Ok(&text[at..n])
}

/// Reads the tokens of a line, in place of those that were there.
pub fn read_tokens<'a>(tokens: &mut Vec<Token<'a>>, line: &TextLine<'a>) -> Result<(), Stop>
    ensures { Gives (λ _. map lexeme tokens.new.items) result (tokens_of line.now) }
{
    tokens.clear();
    let mut rest = push_front(tokens, line)?;
    while let Some(behind) = push_token(tokens, rest)? {
        rest = behind;
    }
    Ok(())
}
