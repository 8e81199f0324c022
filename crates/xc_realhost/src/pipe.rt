ghost use Rattle.std.specs.Prelude.{◌<◌, ◌≤◌, length, IfOk, vec_len};
ghost use Rattle.xc_host.specs.Pipes.{IsSomeOf};

use crate::errors::{or_fault, or_host_fault};
use std::alloc::Global;
use std::io::{Read, Write};
use xc_data::Chunk;
use xc_host::{Fault, HostErr, HostState, Took};

// The most bytes that a pipe holds. A pipe of the system has room for as many.
const ROOM: u32 = 4096;

// The most bytes of one take.
const MOST: usize = 1024;

/// A pipe of the system. Its own count of bytes keeps each read and each write from waiting.
#[derive(Drop)]
pub(crate) struct HostPipe<R: Read + Drop, W: Write + Drop> {
    reader: R,
    writer: W,
    // Bytes that were read and not yet given, so that a take that runs out of memory loses none.
    back: Vec<u8>,
    // How many bytes there are, those in `back` too.
    held: u32,
    shut: bool,
}

impl<R: Read + Drop, W: Write + Drop> HostPipe<R, W> {
    pub(crate) fn new(reader: R, writer: W, alloc: Global) -> HostPipe<R, W> {
        HostPipe {
            reader,
            writer,
            back: Vec::new(alloc),
            held: 0,
            shut: false,
        }
    }

    pub(crate) fn state(&self) -> HostState {
        HostState {
            held: self.held,
            shut: self.shut,
        }
    }

    pub(crate) fn shut(&mut self) {
        self.shut = true;
    }

    // Reads some of what is held. The room for it is made first.
    fn fill(&mut self) -> Result<(), HostErr> {
        self.back.reserve(MOST)?;
        let mut buffer = [0u8; MOST];
        let most = MOST.min(self.held as usize);
        let got = or_host_fault(or_fault(self.reader.read(&mut buffer[..most])))?;
        if got == 0 {
            return Err(HostErr::Fault);
        }
        let kept = self.back.extend_from_slice(&buffer[..got]);
        prove!(kept.is_ok());
        Ok(())
    }

    pub(crate) fn take(&mut self, alloc: Global, n: u32) -> Result<Took, HostErr>
        requires some { 0 < n }
        ensures bound { IfOk result (IsSomeOf n) }
    {
        if self.held == 0 {
            return Ok(if self.shut { Took::End } else { Took::Empty });
        }
        if self.back.is_empty() {
            self.fill()?;
        }
        let count = self.back.len().min(n as usize);
        if count == 0 {
            return Err(HostErr::Fault);
        }
        let front = Chunk::new(alloc, &self.back[..count])?;
        self.drop_front(count as u32);
        Ok(Took::Bytes(front))
    }

    // The first bytes leave.
    fn drop_front(&mut self, count: u32)
        requires { count ≤ vec_len self.old.back }
    {
        let places = count as usize;
        self.back.rotate_left(places);
        let left = self.back.len() - places;
        self.back.truncate(left);
        self.held = self.held.saturating_sub(count);
    }

    pub(crate) fn put(&mut self, bytes: &[u8]) -> Result<u32, Fault>
        requires some { 0 < length bytes.now }
        ensures bound { IfOk result (λ n. (0 < n) × (n ≤ length bytes.now)) }
    {
        let room = ROOM.saturating_sub(self.held);
        let most = bytes.len().min(room as usize);
        let count = or_fault(self.writer.write(&bytes[..most]))?;
        if count == 0 {
            return Err(Fault);
        }
        self.held += count as u32;
        Ok(count as u32)
    }
}
