ghost use Rattle.std.specs.Prelude.{◌≡◌, ℕ, ◌+◌, ◌-◌, ◌<◌, ◌≤◌, ◌++◌, [], length, List, IfOk, IfErr, OnErr, OnOk, false, true};
ghost use Rattle.std.specs.Prelude.{vec_capacity, vec_len};
ghost use Rattle.std.specs.Fmt.{decimal};
ghost use Rattle.xc_edge.specs.Streams.{AppendsPart, AppendsWhole};
ghost use Rattle.xc_edge.specs.View.{HasFailed};
ghost use Rattle.xc_print.specs.Sheets.{IsSent, IsUnderway, heading};

use crate::page::put_number;
use crate::paper::Paper;
use crate::said::{More, Said};
use itoa::Buffer;
use std::alloc::Global;
use std::snapshot::Snapshot;
use xc_data::NoMemory;
use xc_edge::{Failed, Sink, write_front};

// So many bytes are gathered before they are written.
const PIECE: usize = 65_536;

/// No value: a sheet takes each part of a text.
#[derive(Drop)]
pub struct Never {
    ghost never: { ⊥ },
}

/// A text that goes to a sink in pieces. Once a write has failed nothing more is written of it.
#[derive(Drop)]
pub struct Sheet<'a, K: Sink> {
    sink: &'a mut K,
    // The sink as it was handed in.
    start: Snapshot<K>,
    // All that was pushed, and what of it the sink took.
    said: Said,
    taken: Said,
    // What waits to be written.
    piece: Vec<u8>,
    failed: bool,
    ghost underway: { IsUnderway (record { old = K.told start.value; new = K.told sink.now })
        (record { said = said.bytes; taken = taken.bytes; piece = piece.items; failed = failed }) },
    ghost room: { (65536 ≤ vec_capacity piece) × (vec_len piece ≤ 65536) },
}

/// The room for a piece.
pub fn room_of_piece(alloc: Global) -> Result<Vec<u8>, NoMemory>
    ensures { IfOk result (λ piece. (piece.items ≡ []) × (65536 ≤ vec_capacity piece)) }
{
    Ok(Vec::with_capacity(alloc, PIECE)?)
}

// A front of a text goes to the sink. It answers all that was taken, with what was taken before, and whether a write failed.
fn send_front<K: Sink>(sink: &mut K, before: &Said, text: &[u8]) -> (Said, bool)
    ensures { IsSent (record { old = K.told sink.old; new = K.told sink.new }) before.now.bytes result.0.bytes text.now result.1 }
{
    let count = write_front(sink, text);
    let taken = before.then(&More {
        bytes: &text[..count],
    });
    (taken, count < text.len())
}

impl<'a, K: Sink> Sheet<'a, K> {
    /// An empty text, over the room for a piece. It takes no memory.
    pub fn new(piece: Vec<u8>, sink: &'a mut K) -> Sheet<'a, K>
        requires empty { piece.items ≡ [] }
        requires room { 65536 ≤ vec_capacity piece }
        ensures same { result.sink.ghost_name ≡ sink.entry.ghost_name }
        ensures start { (result.start.value ≡ sink.old) × (result.said.bytes ≡ []) }
    {
        let start = Snapshot::of(&*sink);
        Sheet {
            sink,
            start,
            said: Said::new(),
            taken: Said::new(),
            piece,
            failed: false,
        }
    }

    // What waits goes to the sink: no write has failed so far.
    fn put(&mut self)
        requires { self.old.failed ≡ false }
        ensures same { (self.new.sink.ghost_name ≡ self.old.sink.ghost_name) × (self.new.start.value ≡ self.old.start.value) }
        ensures said { self.new.said.bytes ≡ self.old.said.bytes }
        ensures empty { vec_len self.new.piece ≡ 0 }
    {
        let (taken, failed) = send_front(self.sink, &self.taken, self.piece.as_slice());
        self.taken = taken;
        self.failed = failed;
        self.piece.clear();
    }

    // What waits is dropped: a write has failed.
    fn forget(&mut self)
        requires { self.old.failed ≡ true }
        ensures same { (self.new.sink.ghost_name ≡ self.old.sink.ghost_name) × (self.new.start.value ≡ self.old.start.value) }
        ensures said { self.new.said.bytes ≡ self.old.said.bytes }
        ensures empty { vec_len self.new.piece ≡ 0 }
    {
        self.piece.clear();
    }

    // What waits goes to the sink, unless a write has failed.
    #[inline(never)]
    fn flush(&mut self)
        ensures same { (self.new.sink.ghost_name ≡ self.old.sink.ghost_name) × (self.new.start.value ≡ self.old.start.value) }
        ensures said { self.new.said.bytes ≡ self.old.said.bytes }
        ensures empty { vec_len self.new.piece ≡ 0 }
    {
        if self.failed {
            self.forget();
        } else {
            self.put();
        }
    }

    // These bytes, to those that wait, where there is room for them.
    #[inline(always)]
    fn gather(&mut self, bytes: &[u8])
        requires { vec_len self.old.piece + length bytes.now ≤ 65536 }
        ensures same { (self.new.sink.ghost_name ≡ self.old.sink.ghost_name) × (self.new.start.value ≡ self.old.start.value) }
        ensures said { self.new.said.bytes ≡ self.old.said.bytes ++ bytes.now }
    {
        self.piece.extend_from_slice(bytes).unwrap();
        self.said = self.said.then(&More { bytes });
    }

    // These bytes, to the sink at once, where none wait and no write has failed.
    fn put_through(&mut self, bytes: &[u8])
        requires empty { vec_len self.old.piece ≡ 0 }
        requires well { self.old.failed ≡ false }
        ensures same { (self.new.sink.ghost_name ≡ self.old.sink.ghost_name) × (self.new.start.value ≡ self.old.start.value) }
        ensures said { self.new.said.bytes ≡ self.old.said.bytes ++ bytes.now }
    {
        let (taken, failed) = send_front(self.sink, &self.taken, bytes);
        self.taken = taken;
        self.failed = failed;
        self.said = self.said.then(&More { bytes });
    }

    // These bytes are dropped: a write has failed.
    fn pass_over(&mut self, bytes: &[u8])
        requires { self.old.failed ≡ true }
        ensures same { (self.new.sink.ghost_name ≡ self.old.sink.ghost_name) × (self.new.start.value ≡ self.old.start.value) }
        ensures said { self.new.said.bytes ≡ self.old.said.bytes ++ bytes.now }
    {
        self.said = self.said.then(&More { bytes });
    }

    // These bytes, to the sink at once, where none wait.
    fn send(&mut self, bytes: &[u8])
        requires { vec_len self.old.piece ≡ 0 }
        ensures same { (self.new.sink.ghost_name ≡ self.old.sink.ghost_name) × (self.new.start.value ≡ self.old.start.value) }
        ensures said { self.new.said.bytes ≡ self.old.said.bytes ++ bytes.now }
    {
        if self.failed {
            self.pass_over(bytes);
        } else {
            self.put_through(bytes);
        }
    }

    // Bytes for which the piece has no room left.
    #[inline(never)]
    fn gather_behind(&mut self, bytes: &[u8])
        ensures same { (self.new.sink.ghost_name ≡ self.old.sink.ghost_name) × (self.new.start.value ≡ self.old.start.value) }
        ensures said { self.new.said.bytes ≡ self.old.said.bytes ++ bytes.now }
    {
        self.flush();
        if bytes.len() > PIECE {
            self.send(bytes);
        } else {
            self.gather(bytes);
        }
    }

    // These bytes, at the end.
    #[inline(always)]
    fn add(&mut self, bytes: &[u8])
        ensures same { (self.new.sink.ghost_name ≡ self.old.sink.ghost_name) × (self.new.start.value ≡ self.old.start.value) }
        ensures said { self.new.said.bytes ≡ self.old.said.bytes ++ bytes.now }
    {
        if bytes.len() > PIECE - self.piece.len() {
            self.gather_behind(bytes);
        } else {
            self.gather(bytes);
        }
    }

    // Room for a number of four digits is made.
    #[inline(always)]
    fn make_room(&mut self)
        ensures same { (self.new.sink.ghost_name ≡ self.old.sink.ghost_name) × (self.new.start.value ≡ self.old.start.value) }
        ensures said { self.new.said.bytes ≡ self.old.said.bytes }
        ensures room { vec_len self.new.piece + 4 ≤ 65536 }
    {
        if self.piece.len() > PIECE - 4 {
            self.flush();
        }
    }

    // A number of at most four digits, at the end.
    fn add_digits(&mut self, number: u64)
        requires { number < 10000 }
        ensures same { (self.new.sink.ghost_name ≡ self.old.sink.ghost_name) × (self.new.start.value ≡ self.old.start.value) }
        ensures said { self.new.said.bytes ≡ self.old.said.bytes ++ decimal number }
    {
        self.make_room();
        let from = self.piece.len();
        put_number(&mut self.piece, number);
        self.said = self.said.then(&More {
            bytes: &self.piece[from..],
        });
    }

    /// The last piece is written. It answers whether every write went well.
    pub fn close(&mut self) -> Result<(), Failed>
        ensures same { (self.new.sink.ghost_name ≡ self.old.sink.ghost_name) × (self.new.start.value ≡ self.old.start.value) }
        ensures whole { OnOk result (AppendsWhole (K.told self.old.start.value) (K.told self.new.sink.now) self.old.said.bytes) }
        ensures part { OnErr result (AppendsPart (K.told self.old.start.value) (K.told self.new.sink.now) self.old.said.bytes) }
        ensures failed { OnErr result (HasFailed (K.told self.old.start.value) (K.told self.new.sink.now)) }
    {
        self.flush();
        if self.failed {
            return Err(Failed);
        }
        Ok(())
    }

    /// The sink, as it stands.
    pub fn into_sink(self) -> &'a mut K
        ensures same { result.ghost_name ≡ self.entry.sink.ghost_name }
        ensures sink { result.now ≡ self.entry.sink.now }
    {
        let Sheet { sink, .. } = self;
        sink
    }
}

impl<'a, K: Sink> Paper for Sheet<'a, K> {
    type Error = Never;

    ghost said = { λ s. heading s.sink.ghost_name (K.told s.start.value) ++ s.said.bytes };

    #[inline(always)]
    fn push(&mut self, bytes: &[u8]) -> Result<(), Never> {
        self.add(bytes);
        Ok(())
    }

    #[inline(always)]
    fn push_byte(&mut self, byte: u8) -> Result<(), Never> {
        self.add(&[byte]);
        Ok(())
    }

    fn number(&mut self, number: u64) -> Result<(), Never> {
        if number < 10_000 {
            self.add_digits(number);
        } else {
            let mut digits = Buffer::new();
            self.add(digits.format(number).as_bytes());
        }
        Ok(())
    }
}
