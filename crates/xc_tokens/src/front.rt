//! The words in front of a line. Masks of the line's first bytes tell of them without a look at each byte.

ghost use Rattle.std.specs.Prelude.{◌≡◌, ◌≤◌, ◌<◌, ◌-◌, not, take, drop, length, map, IfOk, IfSome, Some, Ok};
ghost use Rattle.std.specs.List.{prefix_len};
ghost use Rattle.xc_tokens.specs.Tokens.{is_blank, Word, token_at, past_blanks as behind_blanks};
ghost use Rattle.xc_tokens.specs.Views.{lexeme};
ghost use Rattle.xc_tokens.specs.Front.{is_mark, line_in, ReadOn};
ghost use lib.Lanes.{mask_l};

use crate::token::Token;
use std::marker::Model;
use std::simd::prelude::*;
use xc_data::NoMemory;
use xc_lanes::{LANES, first_set, next_set};

/// The first bytes of a line, and what lanes tell of them: where blanks stand, and where none does, and how many bytes
/// stand before the first quote or `#`.
#[derive(Drop)]
pub struct Front<'a> {
    /// The text from the line on.
    text: &'a [u8],
    len: usize,
    blanks: u64,
    others: u64,
    unmarked: usize,
}

impl<'a> Model for Front<'a> {
    ghost use Rattle.xc_tokens.specs.Front.{IsLineFront, InText};

    ghost Value = { InText };

    ghost view = { λ a. record { text = a.text.now; len = a.len } };

    ghost invariant = { λ a. IsLineFront a.text.now a.len a.blanks a.others a.unmarked };
}

// Where blanks stand among the first bytes.
fn blank_mask(bytes: &[u8]) -> u64
    requires { LANES ≤ length bytes.now }
    ensures { result ≡ mask_l (map is_blank (take LANES bytes.now)) }
{
    let first = u8x16::from_slice(bytes);
    let blanks = first.simd_eq(u8x16::splat(b' ')) | first.simd_eq(u8x16::splat(b'\t'));
    blanks.to_bitmask()
}

// Where no blank stands among them.
fn other_mask(bytes: &[u8]) -> u64
    requires { LANES ≤ length bytes.now }
    ensures { result ≡ mask_l (map (λ b. not (is_blank b)) (take LANES bytes.now)) }
{
    let first = u8x16::from_slice(bytes);
    let others = first.simd_ne(u8x16::splat(b' ')) & first.simd_ne(u8x16::splat(b'\t'));
    others.to_bitmask()
}

// How many bytes stand before the first quote or `#` among them.
fn unmarked_len(bytes: &[u8]) -> usize
    requires { LANES ≤ length bytes.now }
    ensures { result ≡ prefix_len (λ b. not (is_mark b)) (take LANES bytes.now) }
{
    let first = u8x16::from_slice(bytes);
    let marks = first.simd_eq(u8x16::splat(b'"')) | first.simd_eq(u8x16::splat(b'#'));
    first_set(marks.to_bitmask())
}

impl<'a> Front<'a> {
    /// The front of the line that is so long.
    pub fn new(text: &'a [u8], len: usize) -> Front<'a>
        requires room { LANES ≤ length text.now }
        requires within { len ≤ length text.now }
        ensures { result ≡ record { text = text.now; len = len } }
    {
        Front {
            text,
            len,
            blanks: blank_mask(text),
            others: other_mask(text),
            unmarked: unmarked_len(text),
        }
    }

    // The word behind a place, and where it ends; none where the lanes do not show all of it. They do where its blank stands
    // before any mark, or where the line ends before one.
    fn next_word(&self, at: usize) -> Option<(&'a [u8], usize)>
        requires { at ≤ LANES }
        ensures within { IfSome result (λ next. (next.1 ≤ self.now.len) × (next.1 ≤ LANES)) }
        ensures fewer { IfSome result (λ next. length (drop next.1 (line_in self.now)) < length (drop at (line_in self.now))) }
        ensures reads { IfSome result (λ next. token_at (behind_blanks (drop at (line_in self.now)))
            ≡ Ok (Some (Word next.0.now, drop next.1 (line_in self.now)))) }
    {
        let start = next_set(self.others, at);
        if start >= self.len {
            return None;
        }
        let end = next_set(self.blanks, start);
        if end < self.len {
            return if end < self.unmarked {
                Some((&self.text[start..end], end))
            } else {
                None
            };
        }
        if self.len <= self.unmarked {
            return Some((&self.text[start..self.len], self.len));
        }
        None
    }

    /// Reads the words that it shows, after the tokens so far, and says how many bytes of the line were read.
    pub fn push_words(&self, tokens: &mut Vec<Token<'a>>) -> Result<usize, NoMemory>
        ensures bound { IfOk result (λ at. at ≤ self.now.len) }
        ensures read { IfOk result (λ at. ReadOn (map lexeme tokens.old.items) (line_in self.now)
            (map lexeme tokens.new.items) (drop at (line_in self.now))) }
    {
        let mut at = 0;
        while let Some((word, end)) = self.next_word(at) {
            tokens.push(Token::Word(word))?;
            at = end;
        }
        Ok(at)
    }
}
