ghost use Rattle.std.specs.Prelude.{◌≡◌, ◌≤◌, ◌<◌, ◌+◌, ◌∷◌, ◌==◌, take, drop, length};
ghost use Rattle.std.specs.List.{list_all, prefix_len};
ghost use Rattle.xc_tokens.specs.Lines.{lines_of, is_line_byte};

use std::marker::Model;
use std::simd::prelude::*;
use xc_lanes::{ByteKind, first_set, front_len};

/// A line of a text, without its LF. It knows whether its bytes may all stand in a line.
#[derive(Drop)]
pub struct TextLine<'a> {
    /// The text from the line on, so that many bytes can be looked at at once where a short line ends.
    text: &'a [u8],
    len: usize,
    clean: bool,
}

impl<'a> Model for TextLine<'a> {
    ghost use Rattle.std.specs.Prelude.{◌≡◌, ◌≤◌, List, ℕ, take, length};
    ghost use Rattle.std.specs.List.{list_all};
    ghost use Rattle.xc_tokens.specs.Lines.{is_line_byte};

    ghost Value = { List ℕ };

    ghost view = { λ a. take a.len a.text.now };

    ghost invariant = { λ a. (a.len ≤ length a.text.now) × (a.clean ≡ list_all is_line_byte (take a.len a.text.now)) };
}

impl<'a> TextLine<'a> {
    /// The text from the line on.
    pub fn text(&self) -> &'a [u8]
        ensures { self.now ≡ take (length self.now) result.now }
    {
        self.text
    }

    /// The number of its bytes, without its LF.
    pub fn len(&self) -> usize
        ensures { result ≡ length self.now }
    {
        self.len
    }

    /// How many bytes of the text stand after it, with its LF.
    pub fn behind(&self) -> usize {
        self.text.len() - self.len
    }

    /// Its bytes may all stand in a line.
    pub fn is_clean(&self) -> bool
        ensures { result ≡ list_all is_line_byte self.now }
    {
        self.clean
    }
}

// The bytes that may stand in a line. They are judged in the pass that looks for the end of the line; only a line with a bad
// byte is read again.
struct LineBytes;

impl ByteKind for LineBytes {
    ghost has = { is_line_byte };

    fn is(byte: u8) -> bool {
        if b' ' <= byte && byte <= b'~' {
            return true;
        }
        byte == b'\t'
    }

    fn first_run(bytes: &[u8]) -> usize {
        let first = u8x16::from_slice(bytes);
        let is_control = first.simd_lt(u8x16::splat(b' ')) & first.simd_ne(u8x16::splat(b'\t'));
        let stops = is_control | u8x16::splat(b'~').simd_lt(first);
        first_set(stops.to_bitmask())
    }
}

fn are_line_bytes(bytes: &[u8]) -> bool
    ensures { result ≡ list_all is_line_byte bytes.now }
{
    let mut rest = bytes;
    while let [b, behind @ ..] = rest {
        if !LineBytes::is(*b) {
            return false;
        }
        rest = behind;
    }
    true
}

// How long the first line is, without its LF.
fn line_len(bytes: &[u8]) -> usize
    requires { 0 < length bytes.now }
    ensures bound { result ≤ length bytes.now }
    ensures cut { lines_of bytes.now ≡ take result bytes.now ∷ lines_of (drop (result + 1) bytes.now) }
{
    let mut n = 0;
    while n < bytes.len() {
        if bytes[n] == b'\n' {
            return n;
        }
        n += 1;
    }
    n
}

// The first line of any bytes, and what stands after it.
fn any_line<'a>(bytes: &'a [u8]) -> (TextLine<'a>, &'a [u8])
    requires { 0 < length bytes.now }
    ensures cut { lines_of bytes.now ≡ result.0 ∷ lines_of result.1.now }
    ensures fewer { length result.1.now < length bytes.now }
{
    let n = line_len(bytes);
    let clean = are_line_bytes(&bytes[..n]);
    let line = TextLine {
        text: bytes,
        len: n,
        clean,
    };
    if n == bytes.len() {
        return (line, &bytes[n..]);
    }
    (line, &bytes[n + 1..])
}

/// The first line, without its LF, and what stands after it. Only a line that isn't clean is read twice.
pub fn first_line<'a>(bytes: &'a [u8]) -> (TextLine<'a>, &'a [u8])
    requires { 0 < length bytes.now }
    ensures cut { lines_of bytes.now ≡ result.0 ∷ lines_of result.1.now }
    ensures fewer { length result.1.now < length bytes.now }
{
    let n = front_len::<LineBytes>(bytes);
    if n == bytes.len() {
        let line = TextLine {
            text: bytes,
            len: n,
            clean: true,
        };
        return (line, &bytes[n..]);
    }
    if bytes[n] == b'\n' {
        let line = TextLine {
            text: bytes,
            len: n,
            clean: true,
        };
        return (line, &bytes[n + 1..]);
    }
    any_line(bytes)
}
