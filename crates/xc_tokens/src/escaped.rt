//! Literals with escapes.

ghost use Rattle.std.specs.Prelude.{◌≡◌, ◌≤◌, ◌<◌, ◌+◌, ◌^◌, ◌∷◌, ◌==◌, false, length, option_map, Some, None, IfSome, IfNone, IfOk};
ghost use Rattle.xc_tokens.specs.Quoted.{is_hex, is_escape, escape_meaning, digit_value, hex_byte};
ghost use Rattle.xc_tokens.specs.Quoted.{literal_of, escape_of, hex_of, measured as measured_of};
ghost use Rattle.xc_tokens.specs.Views.{behind_piece};

use std::alloc::Global;
use std::marker::Model;
use xc_data::NoMemory;

/// A literal as it stands in its line. It stays there until it is known where its bytes go.
#[derive(Debug, Drop)]
pub struct Escaped<'a> {
    /// What stands after its opening quote.
    bytes: &'a [u8],
}

impl<'a> Model for Escaped<'a> {
    ghost use Rattle.std.specs.Prelude.{List, ℕ, IsTrue, is_some};
    ghost use Rattle.xc_tokens.specs.Quoted.{literal_of, meant_by};

    ghost Value = { List ℕ };

    ghost view = { λ a. meant_by a.bytes.now };

    ghost invariant = { λ a. IsTrue (is_some (literal_of a.bytes.now)) };
}

fn is_hex_byte(b: u8) -> bool
    ensures { result ≡ is_hex b }
{
    matches!(b, b'0'..=b'9' | b'A'..=b'F' | b'a'..=b'f')
}

fn is_escape_byte(b: u8) -> bool
    ensures { result ≡ is_escape b }
{
    matches!(b, b'n' | b'"' | b'\\')
}

fn escaped_byte(b: u8) -> u8
    ensures { result ≡ escape_meaning b }
{
    if b == b'n' { b'\n' } else { b }
}

fn digit_of(b: u8) -> u8
    ensures value { result ≡ digit_value b }
    ensures bound { result ≤ 15 }
{
    match b {
        b'0'..=b'9' => b - b'0',
        b'A'..=b'F' => b - b'A' + 10,
        b'a'..=b'f' => b - b'a' + 10,
        _ => 0,
    }
}

fn byte_of_digits(first: u8, second: u8) -> u8
    ensures { result ≡ hex_byte first second }
{
    16 * digit_of(first) + digit_of(second)
}

// The byte that two hexadecimal digits mean, and what stands after them.
fn hex_piece(bytes: &[u8]) -> Option<(u8, &[u8])>
    ensures means { behind_piece (option_map (λ p. (p.0, p.1.now)) result) ≡ hex_of bytes.now }
    ensures fewer { IfSome result (λ p. length p.1.now ≤ length bytes.now) }
{
    let [first, second, behind @ ..] = bytes else {
        return None;
    };
    if !is_hex_byte(*first) || !is_hex_byte(*second) {
        return None;
    }
    Some((byte_of_digits(*first, *second), behind))
}

// The byte that an escape means whose `\` stands before the bytes, and what stands after it.
fn escape_piece(bytes: &[u8]) -> Option<(u8, &[u8])>
    ensures means { behind_piece (option_map (λ p. (p.0, p.1.now)) result) ≡ escape_of bytes.now }
    ensures fewer { IfSome result (λ p. length p.1.now ≤ length bytes.now) }
{
    let [b, behind @ ..] = bytes else {
        return None;
    };
    if is_escape_byte(*b) {
        return Some((escaped_byte(*b), behind));
    }
    if *b == b'x' {
        return hex_piece(behind);
    }
    None
}

// The byte that the first piece of a literal means, and what stands after the piece.
fn piece(first: u8, behind: &[u8]) -> Option<(u8, &[u8])>
    requires inside { (first == 34) ≡ false }
    ensures means { behind_piece (option_map (λ p. (p.0, p.1.now)) result) ≡ literal_of (first ∷ behind.now) }
    ensures fewer { IfSome result (λ p. length p.1.now ≤ length behind.now) }
{
    if first == b'\\' {
        return escape_piece(behind);
    }
    Some((first, behind))
}

// How many bytes the literal means whose opening quote stands before the bytes, and what stands after its closing quote.
fn measure(bytes: &[u8]) -> Option<(usize, &[u8])>
    ensures value { option_map (λ p. (p.0, p.1.now)) result ≡ measured_of (literal_of bytes.now) }
    ensures fewer { IfSome result (λ p. p.0 + length p.1.now ≤ length bytes.now) }
{
    let mut n = 0;
    let mut rest = bytes;
    while let [first, behind @ ..] = rest {
        if *first == b'"' {
            return Some((n, behind));
        }
        let (_, next) = piece(*first, behind)?;
        n += 1;
        rest = next;
    }
    None
}

// What the literal means whose opening quote stands before the bytes; none where they are no literal.
fn decoded(alloc: Global, bytes: &[u8]) -> Result<Option<Vec<u8>>, NoMemory>
    ensures { IfOk result (λ meant. option_map (λ v. v.items) meant ≡ option_map (λ p. p.0) (literal_of bytes.now)) }
{
    let mut meant = Vec::new(alloc);
    let mut rest = bytes;
    while let [first, behind @ ..] = rest {
        if *first == b'"' {
            return Ok(Some(meant));
        }
        let Some((byte, next)) = piece(*first, behind) else {
            return Ok(None);
        };
        meant.push(byte)?;
        rest = next;
    }
    Ok(None)
}

impl<'a> Escaped<'a> {
    /// The literal whose opening quote stands before the bytes, how many bytes it means, and what stands after its closing
    /// quote.
    pub fn measured(bytes: &'a [u8]) -> Option<(Escaped<'a>, usize, &'a [u8])>
        ensures some { IfSome result (λ p. literal_of bytes.now ≡ Some (p.0, p.2.now)) }
        ensures none { IfNone result (literal_of bytes.now ≡ None) }
        ensures len { IfSome result (λ p. p.1 ≡ length p.0) }
        ensures fewer { IfSome result (λ p. length p.2.now ≤ length bytes.now) }
    {
        let (n, behind) = measure(bytes)?;
        Some((Escaped { bytes }, n, behind))
    }

    /// How many bytes it means. It makes none of them.
    pub fn len(&self) -> usize
        ensures value { result ≡ length self.now }
        ensures bound { result < 2 ^ 63 }
    {
        match measure(self.bytes) {
            Some((n, _)) => n,
            None => unreachable!(),
        }
    }

    /// The bytes that it means.
    pub fn meant(&self, alloc: Global) -> Result<Vec<u8>, NoMemory>
        ensures { IfOk result (λ bytes. bytes.items ≡ self.now) }
    {
        match decoded(alloc, self.bytes)? {
            Some(meant) => Ok(meant),
            None => unreachable!(),
        }
    }
}
