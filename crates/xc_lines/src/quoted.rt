ghost use Rattle.std.specs.Prelude.{◌≡◌, false, ◌≤◌, ◌==◌, ◌∷◌, length, option_map, IfSome, IfOk};
ghost use Rattle.xc_tokens.specs.Quoted.{is_hex, is_escape, is_itself, escape_meaning, digit_value, hex_byte, literal_of, escape_of};
ghost use Rattle.xc_tokens.specs.Quoted.{hex_of};
ghost use Rattle.xc_tokens.specs.Views.{behind_piece};
ghost use Rattle.xc_lines.specs.Parts.{GivesMeant};

use crate::stop::ReadStop;
use std::alloc::Global;
use std::simd::prelude::*;
use xc_lanes::{ByteKind, first_set, front_len};

fn is_hex_byte(b: u8) -> bool
    ensures { result ≡ is_hex b }
{
    matches!(b, b'0'..=b'9' | b'A'..=b'F' | b'a'..=b'f')
}

fn is_escape_byte(b: u8) -> bool
    ensures { result ≡ is_escape b }
{
    matches!(b, b'n' | b'"' | b'\\')
}

fn escaped_byte(b: u8) -> u8
    ensures { result ≡ escape_meaning b }
{
    if b == b'n' { b'\n' } else { b }
}

fn digit_of(b: u8) -> u8
    ensures value { result ≡ digit_value b }
    ensures bound { result ≤ 15 }
{
    match b {
        b'0'..=b'9' => b - b'0',
        b'A'..=b'F' => b - b'A' + 10,
        b'a'..=b'f' => b - b'a' + 10,
        _ => 0,
    }
}

fn byte_of_digits(first: u8, second: u8) -> u8
    ensures { result ≡ hex_byte first second }
{
    16 * digit_of(first) + digit_of(second)
}

// The byte that two hexadecimal digits mean, and what stands behind them.
fn hex_piece(bytes: &[u8]) -> Option<(u8, &[u8])>
    ensures means { behind_piece (option_map (λ p. (p.0, p.1.now)) result) ≡ hex_of bytes.now }
    ensures fewer { IfSome result (λ p. length p.1.now ≤ length bytes.now) }
{
    let [first, second, behind @ ..] = bytes else {
        return None;
    };
    if !is_hex_byte(*first) || !is_hex_byte(*second) {
        return None;
    }
    Some((byte_of_digits(*first, *second), behind))
}

// The byte that an escape means whose `\` stands before the bytes, and what stands behind it.
fn escape_piece(bytes: &[u8]) -> Option<(u8, &[u8])>
    ensures means { behind_piece (option_map (λ p. (p.0, p.1.now)) result) ≡ escape_of bytes.now }
    ensures fewer { IfSome result (λ p. length p.1.now ≤ length bytes.now) }
{
    let [b, behind @ ..] = bytes else {
        return None;
    };
    if is_escape_byte(*b) {
        return Some((escaped_byte(*b), behind));
    }
    if *b == b'x' {
        return hex_piece(behind);
    }
    None
}

// The byte that the first piece of a literal means, and what stands behind the piece.
fn piece(first: u8, behind: &[u8]) -> Option<(u8, &[u8])>
    requires inside { (first == 34) ≡ false }
    ensures means { behind_piece (option_map (λ p. (p.0, p.1.now)) result) ≡ literal_of (first ∷ behind.now) }
    ensures fewer { IfSome result (λ p. length p.1.now ≤ length behind.now) }
{
    if first == b'\\' {
        return escape_piece(behind);
    }
    Some((first, behind))
}

// What the literal means whose opening quote stands before the bytes, and what stands behind its
// closing quote. It goes byte by byte.
fn past_escapes<'a>(alloc: Global, bytes: &'a [u8]) -> Result<(Vec<u8>, &'a [u8]), ReadStop>
    ensures means { GivesMeant (λ p. (p.0.items, p.1.now)) result (literal_of bytes.now) }
    ensures fewer { IfOk result (λ p. length p.1.now ≤ length bytes.now) }
{
    let mut meant = Vec::new(alloc);
    let mut rest = bytes;
    while let [first, behind @ ..] = rest {
        if *first == b'"' {
            return Ok((meant, behind));
        }
        match piece(*first, behind) {
            Some((byte, next)) => {
                meant.push(byte)?;
                rest = next;
            }
            None => return Err(ReadStop::Unread),
        }
    }
    Err(ReadStop::Unread)
}

// The bytes of a literal that mean themselves.
struct OwnBytes;

impl ByteKind for OwnBytes {
    ghost has = { is_itself };

    fn is(byte: u8) -> bool {
        byte != b'"' && byte != b'\\'
    }

    fn first_run(bytes: &[u8]) -> usize {
        let first = u8x16::from_slice(bytes);
        let stops = first.simd_eq(u8x16::splat(b'"')) | first.simd_eq(u8x16::splat(b'\\'));
        first_set(stops.to_bitmask())
    }
}

// What the literal means whose opening quote stands before the bytes, and what stands behind its
// closing quote. Most literals have no escape.
pub fn past_literal<'a>(alloc: Global, bytes: &'a [u8]) -> Result<(Vec<u8>, &'a [u8]), ReadStop>
    ensures means { GivesMeant (λ p. (p.0.items, p.1.now)) result (literal_of bytes.now) }
    ensures fewer { IfOk result (λ p. length p.1.now ≤ length bytes.now) }
{
    let n = front_len::<OwnBytes>(bytes);
    if n == bytes.len() || bytes[n] != b'"' {
        return past_escapes(alloc, bytes);
    }
    let meant = Vec::from_slice(alloc, &bytes[..n])?;
    Ok((meant, &bytes[n + 1..]))
}
