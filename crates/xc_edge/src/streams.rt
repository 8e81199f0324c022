ghost use Rattle.std.specs.Prelude.{◌≡◌, ◌<◌, ◌≤◌, length, IfOk};
ghost use Rattle.std.specs.Io.{ReadsAtMost};
ghost use Rattle.std.specs.Io.KnownBytes.{ReadConsumes, WriteAppends};
ghost use Rattle.xc_edge.specs.Counts.{HasCause};
ghost use Rattle.xc_edge.specs.View.{StreamView};

use thiserror::Error;

/// A read or a write that failed. It doesn't say why.
#[derive(Clone, Copy, Debug, PartialEq, Eq, Error)]
#[error("the call failed")]
pub struct Failed;

/// Where bytes come from.
pub trait Source {
    /// The bytes that are left, and how often a read failed.
    ghost told: { Self → StreamView };

    /// How many calls have failed since it was made.
    fn faults(&self) -> u64
        ensures { result ≡ (told self.now).faults };

    /// Takes a front of what is left. 0 into a slice that isn't empty is the end, and a read that
    /// fails takes nothing.
    fn read(&mut self, into: &mut [u8]) -> Result<usize, Failed>
        ensures bound { ReadsAtMost result into.new }
        ensures bytes { ReadConsumes (told self.old).bytes (told self.new).bytes result into.new }
        ensures cause { HasCause (told self.old) (told self.new) result };
}

/// Where bytes go.
pub trait Sink {
    /// The bytes that it took, and how often a write failed.
    ghost told: { Self → StreamView };

    /// How many calls have failed since it was made.
    fn faults(&self) -> u64
        ensures { result ≡ (told self.now).faults };

    /// Appends a front of the piece, at least one byte. A write that fails appends nothing.
    /// No piece is empty, so a failure always has a write before it.
    fn write(&mut self, piece: &[u8]) -> Result<usize, Failed>
        requires some { 0 < length piece.now }
        ensures bound { IfOk result (λ n. (0 < n) × (n ≤ length piece.now)) }
        ensures bytes { WriteAppends (told self.old).bytes (told self.new).bytes result piece.now }
        ensures cause { HasCause (told self.old) (told self.new) result };
}
