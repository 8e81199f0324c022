ghost use Rattle.std.specs.Prelude.{◌≡◌, ◌≤◌, ℕ, Bool, take, length};
ghost use Rattle.std.specs.List.{prefix_len};

use crate::masks::LANES;

/// A kind of bytes, such as those that may stand in a line.
pub trait ByteKind {
    ghost has: { ℕ → Bool };

    /// Whether a byte is of this kind.
    fn is(byte: u8) -> bool
        ensures { result ≡ has byte };

    /// How many of the first bytes stand before one that isn't; all lanes where each is.
    fn first_run(bytes: &[u8]) -> usize
        requires { LANES ≤ length bytes.now }
        ensures { result ≡ prefix_len has (take LANES bytes.now) };
}

/// How many bytes in front are of this kind.
pub fn front_len<K: ByteKind>(bytes: &[u8]) -> usize
    ensures value { result ≡ prefix_len K.has bytes.now }
    ensures bound { result ≤ length bytes.now }
{
    let mut n = 0;
    'by_lanes: while bytes.len() - n >= LANES {
        let run = K::first_run(&bytes[n..]);
        if run < LANES {
            return n + run;
        }
        n += LANES;
    }
    while n < bytes.len() {
        if !K::is(bytes[n]) {
            return n;
        }
        n += 1;
    }
    n
}
