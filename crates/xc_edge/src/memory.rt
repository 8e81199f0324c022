ghost use Rattle.std.specs.Prelude.{◌≡◌, ◌↔◌, ◌≤◌, ◌<◌, ◌-◌, [], Some, Contains, IsTrue, IsErr, IfOk, min, length, take};
ghost use Rattle.std.specs.Io.{ReadsAtMost};
ghost use Rattle.std.specs.Io.KnownBytes.{ReadConsumes, WriteAppends};
ghost use Rattle.xc_edge.specs.Counts.{HasCause};
ghost use Rattle.xc_edge.specs.Memory.{ReadFails, WriteFails, after_read, after_write, source_view, sink_view};

use crate::{Failed, Sink, Source};
use std::alloc::Global;
use std::marker::Model;
use xc_data::{CallNumbers, Chunk, NoMemory};

// Copies a front of at most `most` bytes.
fn copy_front(from: &[u8], into: &mut [u8], most: usize) -> usize
    ensures count { result ≡ min (min (length from.now) (length into.old)) most }
    ensures bytes { take result into.new ≡ take result from.now }
    ensures size { length into.new ≡ length into.old }
{
    let count = from.len().min(into.len()).min(most);
    into[..count].copy_from_slice(&from[..count]);
    count
}

fn is_listed(numbers: &CallNumbers, number: u64) -> bool
    ensures { IsTrue result ↔ Contains numbers.now number }
{
    numbers.as_slice().contains(&number)
}

/// A source in memory. Its listed reads fail, counted from 1.
#[derive(Drop)]
pub struct MemSource {
    bytes: Chunk,
    at: usize,
    fails: CallNumbers,
    grain: u32,
    reads: u64,
    faults: u64,
}

impl Model for MemSource {
    ghost use Rattle.std.specs.Prelude.{◌≤◌, length, drop};
    ghost use Rattle.xc_edge.specs.Memory.{MemSource as Giving};

    ghost Value = { Giving };

    ghost view = { λ a. record { left = drop a.at a.bytes; fails = a.fails; grain = a.grain; reads = a.reads; faults = a.faults } };

    ghost invariant = { λ a. (a.at ≤ length a.bytes) × (1 ≤ a.grain) };
}

impl MemSource {
    /// A read gives at most `grain` bytes.
    pub fn new(bytes: Chunk, fails: CallNumbers, grain: u32) -> MemSource
        requires { 1 ≤ grain }
        ensures { result ≡ record { left = bytes; fails = fails; grain = grain; reads = 0; faults = 0 } }
    {
        MemSource {
            bytes,
            at: 0,
            fails,
            grain,
            reads: 0,
            faults: 0,
        }
    }
}

impl Source for MemSource {
    ghost told = { source_view };

    fn faults(&self) -> u64 {
        self.faults
    }

    fn read(&mut self, into: &mut [u8]) -> Result<usize, Failed>
        ensures bound { ReadsAtMost result into.new }
        ensures bytes { ReadConsumes (Some self.old.left) (Some self.new.left) result into.new }
        ensures cause { HasCause (source_view self.old) (source_view self.new) result }
        ensures fails { IsErr result ↔ ReadFails self.old }
        ensures count { IfOk result (λ n. n ≡ min (min (length self.old.left) (length into.old)) self.old.grain) }
        ensures after { self.new ≡ after_read self.old result }
    {
        self.reads = self.reads.saturating_add(1);
        if is_listed(&self.fails, self.reads) {
            self.faults = self.faults.saturating_add(1);
            return Err(Failed);
        }
        let left = &self.bytes.as_slice()[self.at..];
        let count = copy_front(left, into, self.grain as usize);
        self.at += count;
        Ok(count)
    }
}

/// A sink in memory, with room for `room` bytes. Its listed writes fail, counted from 1, and so
/// does each write into the full room.
#[derive(Drop)]
pub struct MemSink {
    bytes: Vec<u8>,
    room: u32,
    fails: CallNumbers,
    grain: u32,
    writes: u64,
    faults: u64,
}

impl Model for MemSink {
    ghost use Rattle.std.specs.Prelude.{◌≤◌, vec_len, vec_capacity};
    ghost use Rattle.xc_edge.specs.Memory.{MemSink as Taking};

    ghost Value = { Taking };

    ghost view = { λ a. record {
      taken = a.bytes.items;
      room = a.room;
      fails = a.fails;
      grain = a.grain;
      writes = a.writes;
      faults = a.faults;
    } };

    ghost invariant = { λ a. (vec_len a.bytes ≤ a.room) × (a.room ≤ vec_capacity a.bytes) × (1 ≤ a.grain) };
}

impl MemSink {
    /// Takes the whole room at once, so that a write takes no memory. A write takes at most `grain`
    /// bytes.
    pub fn new(
        alloc: Global,
        fails: CallNumbers,
        grain: u32,
        room: u32,
    ) -> Result<MemSink, NoMemory>
        requires { 1 ≤ grain }
        ensures { IfOk result (λ sink. sink ≡ record { taken = []; room = room; fails = fails; grain = grain; writes = 0; faults = 0 }) }
    {
        Ok(MemSink {
            bytes: Vec::with_capacity(alloc, room as usize)?,
            room,
            fails,
            grain,
            writes: 0,
            faults: 0,
        })
    }

    /// All bytes that were written, in order.
    pub fn taken(&self) -> &[u8]
        ensures { result.now ≡ self.now.taken }
    {
        self.bytes.as_slice()
    }

    // Whether the next write fails.
    fn fails_next(&self) -> bool
        ensures { IsTrue result ↔ WriteFails self.now }
    {
        let number = self.writes.saturating_add(1);
        is_listed(&self.fails, number) || self.bytes.len() == self.room as usize
    }
}

impl Sink for MemSink {
    ghost told = { sink_view };

    fn faults(&self) -> u64 {
        self.faults
    }

    fn write(&mut self, piece: &[u8]) -> Result<usize, Failed>
        requires some { 0 < length piece.now }
        ensures bound { IfOk result (λ n. (0 < n) × (n ≤ length piece.now)) }
        ensures bytes { WriteAppends (Some self.old.taken) (Some self.new.taken) result piece.now }
        ensures cause { HasCause (sink_view self.old) (sink_view self.new) result }
        ensures fails { IsErr result ↔ WriteFails self.old }
        ensures count { IfOk result (λ n. n ≡ min (min (length piece.now) (self.old.room - length self.old.taken)) self.old.grain) }
        ensures after { self.new ≡ after_write self.old piece.now result }
    {
        let fails = self.fails_next();
        self.writes = self.writes.saturating_add(1);
        if fails {
            self.faults = self.faults.saturating_add(1);
            return Err(Failed);
        }
        let room = self.room as usize - self.bytes.len();
        let count = piece.len().min(room).min(self.grain as usize);
        self.bytes.extend_from_slice(&piece[..count]).unwrap();
        Ok(count)
    }
}
