//! The two halves of an input, and the line between them.

ghost use Rattle.std.specs.Prelude.{◌≡◌, ◌≤◌, ◌<◌, ◌+◌, drop, length, true, false};
ghost use Rattle.xcalls_check.specs.Halves.{is_inner, is_divider, script_len_from, script_part, text_of};

use std::simd::prelude::*;
use xc_lanes::{ByteKind, first_set, front_len};

// The line between them, with its LF.
const MARK: &[u8] = b"====\n";

// A line that is the mark begins here.
fn begins_mark(bytes: &[u8]) -> bool
    ensures { result ≡ is_divider bytes.now }
{
    matches!(
        bytes,
        [b'=', b'=', b'=', b'='] | [b'=', b'=', b'=', b'=', b'\n', ..]
    )
}

// The bytes of a line but for its LF.
struct InnerBytes;

impl ByteKind for InnerBytes {
    ghost has = { is_inner };

    fn is(byte: u8) -> bool {
        byte != b'\n'
    }

    fn first_run(bytes: &[u8]) -> usize {
        let first = u8x16::from_slice(bytes);
        first_set(first.simd_eq(u8x16::splat(b'\n')).to_bitmask())
    }
}

// How many bytes the first line has, with its LF if it has one.
fn line_len(bytes: &[u8]) -> usize
    requires { is_divider bytes.now ≡ false }
    ensures bound { result ≤ length bytes.now }
    ensures some { 0 < length bytes.now → 0 < result }
    ensures past { result + script_len_from true (drop result bytes.now) ≡ script_len_from true bytes.now }
{
    let n = front_len::<InnerBytes>(bytes);
    if n == bytes.len() {
        return n;
    }
    n + 1
}

// How long the script is.
fn script_len(input: &[u8]) -> usize
    ensures value { result ≡ script_len_from true input.now }
    ensures bound { result ≤ length input.now }
{
    let mut n = 0;
    while n < input.len() {
        let rest = &input[n..];
        if begins_mark(rest) {
            return n;
        }
        n += line_len(rest);
    }
    n
}

/// The script and the text.
pub fn halves(input: &[u8]) -> (&[u8], &[u8])
    ensures script { result.0.now ≡ script_part input.now }
    ensures text { result.1.now ≡ text_of input.now }
{
    let (script, behind) = input.split_at(script_len(input));
    let text = &behind[behind.len().min(MARK.len())..];
    (script, text)
}
