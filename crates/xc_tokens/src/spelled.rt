ghost use Rattle.std.specs.Prelude.{◌≡◌, ◌↔◌, IsSome, IfSome, IsTrue, nat_eq};
ghost use Rattle.std.specs.Cmp.Lexicographic.{pointwise};
ghost use Rattle.std.specs.List.{list_all};
ghost use Rattle.xc_data.specs.Spelling.{is_ident, is_ident_first, is_ident_byte};

use std::marker::Model;
use xc_data::Ident;

/// A word that is an identifier, as its line has it.
///
/// It stays in its line until its name has a place, so a name that has one already isn't copied.
#[derive(Drop)]
pub struct IdentWord<'a> {
    bytes: &'a [u8],
}

impl<'a> Model for IdentWord<'a> {
    ghost use Rattle.std.specs.Prelude.{List, ℕ, IsTrue};
    ghost use Rattle.xc_data.specs.Spelling.{is_ident};

    ghost Value = { List ℕ };

    ghost view = { λ a. a.bytes.now };

    ghost invariant = { λ a. IsTrue (is_ident a.bytes.now) };
}

fn is_first(b: u8) -> bool
    ensures { result ≡ is_ident_first b }
{
    b.is_ascii_lowercase()
}

fn is_tail(b: u8) -> bool
    ensures { result ≡ is_ident_byte b }
{
    matches!(b, b'a'..=b'z' | b'0'..=b'9' | b'_')
}

fn are_tails(bytes: &[u8]) -> bool
    ensures { result ≡ list_all is_ident_byte bytes.now }
{
    let mut rest = bytes;
    while let [b, behind @ ..] = rest {
        if !is_tail(*b) {
            return false;
        }
        rest = behind;
    }
    true
}

fn is_spelled(bytes: &[u8]) -> bool
    ensures { result ≡ is_ident bytes.now }
{
    match bytes {
        [] => false,
        [first, tail @ ..] => bytes.len() <= 32 && is_first(*first) && are_tails(tail),
    }
}

impl<'a> IdentWord<'a> {
    /// The word, if it is spelled as an identifier is; `None` otherwise.
    pub fn new(word: &'a [u8]) -> Option<IdentWord<'a>>
        ensures exact { IsSome result ↔ IsTrue (is_ident word.now) }
        ensures value { IfSome result (λ ident. ident ≡ word.now) }
    {
        if !is_spelled(word) {
            return None;
        }
        Some(IdentWord { bytes: word })
    }

    /// Its bytes as the line has them.
    pub fn bytes(&self) -> &'a [u8]
        ensures value { result.now ≡ self.now }
        ensures ident { IsTrue (is_ident self.now) }
    {
        self.bytes
    }

    /// The identifier that the word spells.
    pub fn ident(&self) -> Ident
        ensures { result ≡ self.now }
    {
        match Ident::new(self.bytes) {
            Some(ident) => ident,
            None => unreachable!(),
        }
    }
}
