ghost use Rattle.std.specs.Prelude.{◌≡◌, ◌<◌, ◌≤◌, length, IfOk};
ghost use Rattle.std.specs.Io.{ReadsAtMost};
ghost use Rattle.std.specs.Io.KnownBytes.{ReadConsumes, WriteAppends};
ghost use Rattle.xc_edge.specs.Counts.{HasCause, faults_after};
ghost use Rattle.xc_edge.specs.Standard.{view_with};

use crate::{Failed, Sink, Source};
use std::io::{Read, Write};
use std::marker::Model;

/// A source over a reader. Each error counts as a fault, an interrupted call too.
#[derive(Drop)]
pub struct StdSource<R> {
    inner: R,
    faults: u64,
}

impl<R> Model for StdSource<R> {
    ghost use Rattle.xc_edge.specs.Standard.{Counting, coded_counting};

    ghost Value = { Counting R };

    ghost coded = { coded_counting R.code };

    ghost view = { λ a. record { inner = a.inner; faults = a.faults } };
}

impl<R: Read> StdSource<R> {
    /// A source over a reader, such as standard input.
    pub fn new(inner: R) -> StdSource<R>
        ensures { result ≡ record { inner = inner; faults = 0 } }
    {
        StdSource { inner, faults: 0 }
    }
}

impl<R: Read> Source for StdSource<R> {
    ghost told = { view_with R.remaining };

    fn faults(&self) -> u64 {
        self.faults
    }

    fn read(&mut self, into: &mut [u8]) -> Result<usize, Failed>
        ensures bound { ReadsAtMost result into.new }
        ensures bytes { ReadConsumes (R.remaining self.old.inner) (R.remaining self.new.inner) result into.new }
        ensures cause { HasCause (view_with R.remaining self.old) (view_with R.remaining self.new) result }
        ensures faults { self.new.faults ≡ faults_after result self.old.faults }
    {
        match self.inner.read(into) {
            Ok(count) => Ok(count),
            Err(_) => {
                self.faults = self.faults.saturating_add(1);
                Err(Failed)
            }
        }
    }
}

/// A sink over a writer. Each error counts as a fault, and so does a write that takes nothing. A
/// writer in memory that finds no memory fails too.
#[derive(Drop)]
pub struct StdSink<W> {
    inner: W,
    faults: u64,
}

impl<W> Model for StdSink<W> {
    ghost use Rattle.xc_edge.specs.Standard.{Counting, coded_counting};

    ghost Value = { Counting W };

    ghost coded = { coded_counting W.code };

    ghost view = { λ a. record { inner = a.inner; faults = a.faults } };
}

impl<W: Write> StdSink<W> {
    /// A sink over a writer, such as standard output.
    pub fn new(inner: W) -> StdSink<W>
        ensures { result ≡ record { inner = inner; faults = 0 } }
    {
        StdSink { inner, faults: 0 }
    }
}

impl<W: Write> Sink for StdSink<W> {
    ghost told = { view_with W.contents };

    fn faults(&self) -> u64 {
        self.faults
    }

    fn write(&mut self, piece: &[u8]) -> Result<usize, Failed>
        requires some { 0 < length piece.now }
        ensures bound { IfOk result (λ n. (0 < n) × (n ≤ length piece.now)) }
        ensures bytes { WriteAppends (W.contents self.old.inner) (W.contents self.new.inner) result piece.now }
        ensures cause { HasCause (view_with W.contents self.old) (view_with W.contents self.new) result }
        ensures faults { self.new.faults ≡ faults_after result self.old.faults }
    {
        match self.inner.write(piece) {
            Ok(0) | Err(_) => {
                self.faults = self.faults.saturating_add(1);
                Err(Failed)
            }
            Ok(count) => Ok(count),
        }
    }
}
