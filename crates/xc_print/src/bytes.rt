ghost use Rattle.std.specs.Prelude.{◌≡◌, ◌++◌, ◌<◌, ◌≤◌, length, false, OnOk};
ghost use Rattle.std.specs.List.{prefix_len};
ghost use Rattle.std.specs.Fmt.{digit_glyph};
ghost use Rattle.xc_print.specs.Bytes.{is_plain, escaped_byte, escaped, bytes_text};

use crate::paper::Paper;
use std::simd::prelude::*;
use xc_lanes::{ByteKind, first_set, front_len};

fn hex_digit(n: u8) -> u8
    requires { n < 16 }
    ensures { result ≡ digit_glyph false n }
{
    if n < 10 { b'0' + n } else { b'a' + (n - 10) }
}

// The bytes that stand for themselves between quotes.
struct PlainBytes;

impl ByteKind for PlainBytes {
    ghost has = { is_plain };

    fn is(byte: u8) -> bool {
        matches!(byte, b' '..=b'~') && byte != b'"' && byte != b'\\'
    }

    fn first_run(bytes: &[u8]) -> usize {
        let first = u8x16::from_slice(bytes);
        let outside = first.simd_lt(u8x16::splat(b' ')) | u8x16::splat(b'~').simd_lt(first);
        let marks = first.simd_eq(u8x16::splat(b'"')) | first.simd_eq(u8x16::splat(b'\\'));
        first_set((outside | marks).to_bitmask())
    }
}

// A byte, or its escape.
fn push_escape<P: Paper>(out: &mut P, b: u8) -> Result<(), P::Error>
    ensures { OnOk result (P.said out.new ≡ P.said out.old ++ escaped_byte b) }
{
    match b {
        b'"' => out.push(b"\\\""),
        b'\\' => out.push(b"\\\\"),
        b'\n' => out.push(b"\\n"),
        b' '..=b'~' => out.push_byte(b),
        _ => out.push(&[b'\\', b'x', hex_digit(b / 16), hex_digit(b % 16)]),
    }
}

/// Bytes between quotes.
#[tactic(auto, using(crate::proofs::Runs::last_run, crate::proofs::Runs::next_run))]
pub fn push_escaped<P: Paper>(out: &mut P, bytes: &[u8]) -> Result<(), P::Error>
    ensures { OnOk result (P.said out.new ≡ P.said out.old ++ escaped bytes.now) }
{
    let mut left = bytes;
    'runs: loop {
        let (plain, behind) = left.split_at(front_len::<PlainBytes>(left));
        out.push(plain)?;
        match behind.split_first() {
            None => return Ok(()),
            Some((b, further)) => {
                push_escape(out, *b)?;
                left = further;
            }
        }
    }
}

/// The bytes in quotes.
pub fn push_bytes<P: Paper>(out: &mut P, bytes: &[u8]) -> Result<(), P::Error>
    ensures { OnOk result (P.said out.new ≡ P.said out.old ++ bytes_text bytes.now) }
{
    out.push(b"\"")?;
    push_escaped(out, bytes)?;
    out.push(b"\"")
}
