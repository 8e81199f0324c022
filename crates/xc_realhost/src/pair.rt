ghost use Rattle.std.specs.Prelude.{◌≤◌, length, IfOk};
ghost use Rattle.xc_host.specs.Pairs.{IsMessage};

use crate::disk::Disk;
use crate::errors::{or_fault, or_host_fault};
use arrayvec::ArrayVec;
use std::alloc::Global;
use std::io;
use std::io::{Read, Write};
use std::os::unix::net::UnixStream;
use xc_data::Chunk;
use xc_host::{Fault, HostErr, HostState, Took};

// The most bytes of a message.
const MOST: usize = 1024;

// The most messages that wait for a side.
const WAITING: usize = 8;

/// One side of a pair: its socket, and the lengths of the messages that wait there, in their order.
#[derive(Drop)]
struct PairEnd {
    socket: UnixStream,
    lengths: ArrayVec<u16, WAITING>,
    // What was read of the first message and not yet given, so that a receipt that runs out of memory loses none.
    back: Vec<u8>,
    // Whether the system once took a part of a message alone. What came behind that part couldn't be told from it, so
    // nothing is sent here any more.
    torn: bool,
}

/// A pair of sockets, connected to each other and to nobody else. What it notes of messages keeps each receipt from waiting.
#[derive(Drop)]
pub(crate) struct HostPair {
    zero: PairEnd,
    one: PairEnd,
    shut: bool,
}

// Reads the rest of a message of this length, behind what was read of it. The room for it is made first.
fn fill(mut socket: &UnixStream, back: &mut Vec<u8>, length: usize) -> Result<(), HostErr> {
    let left = length.saturating_sub(back.len());
    if left == 0 {
        return Ok(());
    }
    back.reserve(left)?;
    let mut buffer = [0u8; MOST];
    let most = MOST.min(left);
    let got = or_host_fault(or_fault(socket.read(&mut buffer[..most])))?;
    let kept = back.extend_from_slice(&buffer[..got]);
    prove!(kept.is_ok());
    if got < left {
        return Err(HostErr::Fault);
    }
    Ok(())
}

impl PairEnd {
    // No call on the socket waits.
    fn new(alloc: Global, socket: UnixStream) -> io::Result<PairEnd> {
        socket.set_nonblocking(true)?;
        Ok(PairEnd {
            socket,
            lengths: ArrayVec::new(),
            back: Vec::new(alloc),
            torn: false,
        })
    }

    // Takes the first message, if one waits.
    fn recv(&mut self, alloc: Global, shut: bool) -> Result<Took, HostErr>
        ensures bound { IfOk result IsMessage }
    {
        let Some(length) = self.lengths.as_slice().first().copied() else {
            return Ok(if shut { Took::End } else { Took::Empty });
        };
        fill(&self.socket, &mut self.back, usize::from(length))?;
        let count = MOST.min(self.back.len());
        let message = Chunk::new(alloc, &self.back[..count])?;
        self.back.clear();
        self.lengths.pop_at(0);
        Ok(Took::Bytes(message))
    }

    // Puts a message behind those that wait here, by the other side's socket.
    fn put(&mut self, mut from: &UnixStream, bytes: &[u8]) -> Result<(), Fault>
        requires few { length bytes.now ≤ 1024 }
    {
        if self.torn || self.lengths.is_full() {
            return Err(Fault);
        }
        if !bytes.is_empty() {
            let sent = or_fault(from.write(bytes))?;
            if sent != bytes.len() {
                self.torn = sent > 0;
                return Err(Fault);
            }
        }
        self.lengths.push(bytes.len() as u16);
        Ok(())
    }
}

fn connected<D: Disk>(disk: &D, alloc: Global) -> io::Result<HostPair> {
    let (zero, one) = disk.pair()?;
    Ok(HostPair {
        zero: PairEnd::new(alloc, zero)?,
        one: PairEnd::new(alloc, one)?,
        shut: false,
    })
}

impl HostPair {
    pub(crate) fn new<D: Disk>(disk: &D, alloc: Global) -> Result<HostPair, Fault> {
        or_fault(connected(disk, alloc))
    }

    pub(crate) fn state(&self, side: u8) -> HostState {
        let end = if side == 0 { &self.zero } else { &self.one };
        HostState {
            held: end.lengths.len() as u32,
            shut: self.shut,
        }
    }

    pub(crate) fn shut(&mut self) {
        self.shut = true;
    }

    pub(crate) fn recv(&mut self, alloc: Global, side: u8) -> Result<Took, HostErr>
        ensures bound { IfOk result IsMessage }
    {
        let shut = self.shut;
        if side == 0 {
            self.zero.recv(alloc, shut)
        } else {
            self.one.recv(alloc, shut)
        }
    }

    pub(crate) fn send(&mut self, side: u8, bytes: &[u8]) -> Result<(), Fault>
        requires few { length bytes.now ≤ 1024 }
    {
        if side == 0 {
            self.one.put(&self.zero.socket, bytes)
        } else {
            self.zero.put(&self.one.socket, bytes)
        }
    }
}
