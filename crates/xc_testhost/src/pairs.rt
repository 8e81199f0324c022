ghost use Rattle.std.specs.Prelude.{◌≤◌, length};
ghost use Rattle.xc_host.specs.Pairs.{IsMessage};

use std::alloc::Global;
use std::marker::Model;
use xc_data::{Chunk, NoMemory, Num};
use xc_host::{HostState, Took};

/// A message of at most 1,024 bytes.
#[derive(Drop)]
struct Message {
    bytes: Chunk,
}

impl Model for Message {
    ghost use Rattle.std.specs.Prelude.{◌≤◌, ℕ, List, length};

    ghost Value = { List ℕ };

    ghost view = { λ a. a.bytes };

    ghost invariant = { λ a. length a.bytes ≤ 1024 };
}

// The first leaves, where there is one.
fn first_of(messages: &mut Vec<Message>) -> Option<Message> {
    if messages.is_empty() {
        return None;
    }
    Some(messages.remove(0))
}

#[derive(Drop)]
struct Pair {
    num: Num,
    first: Vec<Message>,
    second: Vec<Message>,
    shut: bool,
}

impl Pair {
    fn state(&self, side: u8) -> HostState {
        let held = if side == 0 {
            self.first.len()
        } else {
            self.second.len()
        };
        HostState {
            held: held.min(u32::MAX as usize) as u32,
            shut: self.shut,
        }
    }

    // The first message that waits for a side leaves.
    fn recv(&mut self, side: u8) -> Took
        ensures { IsMessage result }
    {
        let first = if side == 0 {
            first_of(&mut self.first)
        } else {
            first_of(&mut self.second)
        };
        match first {
            Some(message) => Took::Bytes(message.bytes),
            None => if self.shut { Took::End } else { Took::Empty },
        }
    }

    // Puts a message of a side after those that wait for the other side.
    fn send(&mut self, side: u8, message: Message) -> Result<(), NoMemory> {
        if side == 0 {
            Ok(self.second.push(message)?)
        } else {
            Ok(self.first.push(message)?)
        }
    }
}

/// The pairs, in no order. In one that isn't there no message waits, and it can't be changed.
#[derive(Drop)]
pub(crate) struct Pairs {
    alloc: Global,
    pairs: Vec<Pair>,
}

impl Pairs {
    pub(crate) fn new(alloc: Global) -> Pairs {
        Pairs {
            alloc,
            pairs: Vec::new(alloc),
        }
    }

    pub(crate) fn make(&mut self, num: Num) -> Result<(), NoMemory> {
        Ok(
            self.pairs.push(Pair {
                num,
                first: Vec::new(self.alloc),
                second: Vec::new(self.alloc),
                shut: false,
            })?,
        )
    }

    pub(crate) fn state(&self, num: Num, side: u8) -> HostState {
        for pair in &self.pairs {
            if pair.num == num {
                return pair.state(side);
            }
        }
        HostState {
            held: 0,
            shut: false,
        }
    }

    pub(crate) fn recv(&mut self, num: Num, side: u8) -> Took
        ensures { IsMessage result }
    {
        for pair in self.pairs.iter_mut() {
            if pair.num == num {
                return pair.recv(side);
            }
        }
        Took::Empty
    }

    pub(crate) fn send(&mut self, num: Num, side: u8, bytes: &[u8]) -> Result<(), NoMemory>
        requires { length bytes.now ≤ 1024 }
    {
        let message = Message {
            bytes: Chunk::new(self.alloc, bytes)?,
        };
        for pair in self.pairs.iter_mut() {
            if pair.num == num {
                return pair.send(side, message);
            }
        }
        Ok(())
    }

    pub(crate) fn shut(&mut self, num: Num) {
        for pair in self.pairs.iter_mut() {
            if pair.num == num {
                pair.shut = true;
            }
        }
    }

    pub(crate) fn remove(&mut self, num: Num) {
        self.pairs.retain(|pair| pair.num != num);
    }
}
