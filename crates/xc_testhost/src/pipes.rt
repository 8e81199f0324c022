ghost use Rattle.std.specs.Prelude.{◌<◌, IfOk};
ghost use Rattle.xc_host.specs.Pipes.{IsSomeOf};

use bytes::BytesMut;
use std::alloc::Global;
use xc_data::{Chunk, NoMemory, Num};
use xc_host::{HostState, Took};

#[derive(Drop)]
struct Pipe {
    num: Num,
    held: BytesMut,
    shut: bool,
}

impl Pipe {
    // The first n bytes leave, or all where those are fewer.
    fn take(&mut self, alloc: Global, n: u32) -> Result<Took, NoMemory>
        requires { 0 < n }
        ensures { IfOk result (IsSomeOf n) }
    {
        if self.held.is_empty() {
            return Ok(if self.shut { Took::End } else { Took::Empty });
        }
        let count = (n as usize).min(self.held.len());
        let front = Chunk::new(alloc, &self.held.as_slice()[..count])?;
        self.held.advance(count);
        Ok(Took::Bytes(front))
    }
}

/// The pipes, in no order. One that isn't there holds nothing, and can't be changed.
#[derive(Drop)]
pub(crate) struct Pipes {
    alloc: Global,
    pipes: Vec<Pipe>,
}

impl Pipes {
    pub(crate) fn new(alloc: Global) -> Pipes {
        Pipes {
            alloc,
            pipes: Vec::new(alloc),
        }
    }

    pub(crate) fn make(&mut self, num: Num) -> Result<(), NoMemory> {
        Ok(
            self.pipes.push(Pipe {
                num,
                held: BytesMut::new(self.alloc),
                shut: false,
            })?,
        )
    }

    pub(crate) fn state(&self, num: Num) -> HostState {
        for pipe in &self.pipes {
            if pipe.num == num {
                return HostState {
                    held: pipe.held.len().min(u32::MAX as usize) as u32,
                    shut: pipe.shut,
                };
            }
        }
        HostState {
            held: 0,
            shut: false,
        }
    }

    pub(crate) fn take(&mut self, num: Num, n: u32) -> Result<Took, NoMemory>
        requires { 0 < n }
        ensures { IfOk result (IsSomeOf n) }
    {
        let alloc = self.alloc;
        for pipe in self.pipes.iter_mut() {
            if pipe.num == num {
                return pipe.take(alloc, n);
            }
        }
        Ok(Took::Empty)
    }

    pub(crate) fn put(&mut self, num: Num, bytes: &[u8]) -> Result<(), NoMemory> {
        for pipe in self.pipes.iter_mut() {
            if pipe.num == num {
                return Ok(pipe.held.extend_from_slice(bytes)?);
            }
        }
        Ok(())
    }

    pub(crate) fn shut(&mut self, num: Num) {
        for pipe in self.pipes.iter_mut() {
            if pipe.num == num {
                pipe.shut = true;
            }
        }
    }

    pub(crate) fn remove(&mut self, num: Num) {
        self.pipes.retain(|pipe| pipe.num != num);
    }
}
