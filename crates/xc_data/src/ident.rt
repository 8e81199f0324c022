ghost use Rattle.std.specs.Prelude.{◌≡◌, ◌↔◌, ◌-◌, ◌≤◌, List, ℕ, length, IsTrue, IsSome, IfSome, nat_eq, refl, Some};
ghost use Rattle.std.specs.List.{list_all};
ghost use Rattle.std.specs.Ordering.{nat_cmp};
ghost use Rattle.std.specs.Cmp.Lexicographic.{pointwise, slice_cmp, nat_list_eq_equiv, nat_list_cmp_total, texts_ties, texts_po};
ghost use Rattle.std.specs.Cmp.{partial_equiv_from_equiv};
ghost use Rattle.xc_data.specs.Spelling.{is_ident, is_ident_first, is_ident_byte, padded_to};

use std::cmp::Ordering;
use std::marker::Model;

/// A variable's, a slot's or a block's name.
#[derive(Clone, Copy, Debug)]
pub struct Ident {
    bytes: [u8; 32],
    len: u8,
}

impl Model for Ident {
    ghost use Rattle.std.specs.Prelude.{◌≡◌, ◌≤◌, List, ℕ, take, length, IsTrue};
    ghost use Rattle.xc_data.specs.Spelling.{is_ident, padded_to, IsPadded};

    ghost Value = { List ℕ };

    ghost view = { λ a. take a.len a.bytes };

    ghost invariant = { λ a. IsPadded 32 a.len a.bytes × IsTrue (is_ident (take a.len a.bytes)) };

    ghost inverse = { λ xs. record { bytes = padded_to 32 xs; len = length xs } };

    ghost inverse_ok = { λ a h i. record { bytes = h.0.padded i; len = h.0.whole i } };
}

fn is_first(b: u8) -> bool
    ensures { result ≡ is_ident_first b }
{
    b.is_ascii_lowercase()
}

fn is_tail(b: u8) -> bool
    ensures { result ≡ is_ident_byte b }
{
    matches!(b, b'a'..=b'z' | b'0'..=b'9' | b'_')
}

fn are_tails(bytes: &[u8]) -> bool
    ensures { result ≡ list_all is_ident_byte bytes.now }
{
    bytes.iter().all(|b| is_tail(*b))
}

fn is_spelled(bytes: &[u8]) -> bool
    ensures { result ≡ is_ident bytes.now }
{
    match bytes {
        [] => false,
        [first, tail @ ..] => bytes.len() <= 32 && is_first(*first) && are_tails(tail),
    }
}

// The bytes, with zeros after them.
fn padded(bytes: &[u8]) -> [u8; 32]
    requires { length bytes.now ≤ 32 }
    ensures { result ≡ padded_to 32 bytes.now }
{
    let mut places = [0; 32];
    for (i, b) in bytes.iter().enumerate() {
        places[i] = *b;
    }
    places
}

impl Ident {
    /// An identifier of these bytes: a letter or an underscore first, then letters, digits and underscores, at most 32 in all. `None` for
    /// any others.
    pub fn new(bytes: &[u8]) -> Option<Ident>
        ensures exact { IsSome result ↔ IsTrue (is_ident bytes.now) }
        ensures value { IfSome result (λ ident. ident ≡ bytes.now) }
    {
        if !is_spelled(bytes) {
            return None;
        }
        Some(Ident {
            bytes: padded(bytes),
            len: bytes.len() as u8,
        })
    }

    /// Its bytes, without the padding.
    pub fn as_slice(&self) -> &[u8]
        ensures value { result.now ≡ self.now }
        ensures name { IsTrue (is_ident self.now) }
    {
        &self.bytes[..self.len as usize]
    }
}

impl PartialEq for Ident {
    ghost eq = { pointwise nat_eq };

    ghost laws = { partial_equiv_from_equiv nat_list_eq_equiv };

    fn eq(&self, other: &Self) -> bool {
        self.as_slice() == other.as_slice()
    }
}

impl Eq for Ident {
    ghost laws = { nat_list_eq_equiv };
}

impl PartialOrd for Ident {
    ghost partial_cmp = { λ x y. Some (slice_cmp nat_cmp x y) };

    ghost laws = { texts_po };

    fn partial_cmp(&self, other: &Self) -> Option<Ordering> {
        Some(self.cmp(other))
    }
}

impl Ord for Ident {
    ghost cmp = { slice_cmp nat_cmp };

    ghost total = { nat_list_cmp_total };

    ghost matches_partial_cmp = { λ x y. refl };

    ghost matches_eq = { texts_ties };

    fn cmp(&self, other: &Self) -> Ordering {
        self.as_slice().cmp(other.as_slice())
    }
}
