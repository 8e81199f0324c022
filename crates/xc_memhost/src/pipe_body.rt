ghost use Rattle.std.specs.Prelude.{◌≡◌, ◌≤◌, ◌+◌, ◌++◌, true, false, length, take, drop, IfOk, OnOk, OnErr};
ghost use Rattle.xc_host.specs.Pipes.{pipe_state};
ghost use Rattle.xc_world.specs.World.{empty_pipe};

use bytes::BytesMut;
use std::alloc::Global;
use std::marker::Model;
use xc_data::{Chunk, NoMemory};
use xc_host::HostState;

/// A pipe's bytes, and whether it is shut.
#[derive(Drop)]
pub(crate) struct PipeBody {
    held: BytesMut,
    shut: bool,
}

impl Model for PipeBody {
    ghost use Rattle.std.specs.Prelude.{◌≤◌, length};
    ghost use Rattle.xc_world.specs.World.{Pipe, coded_pipe};

    ghost Value = { Pipe };

    ghost coded = { coded_pipe };

    ghost view = { λ a. record { held = a.held.items; shut = a.shut } };

    ghost invariant = { λ a. length a.held.items ≤ 4096 };
}

impl PipeBody {
    pub(crate) fn empty(alloc: Global) -> PipeBody
        ensures { result ≡ empty_pipe }
    {
        PipeBody {
            held: BytesMut::new(alloc),
            shut: false,
        }
    }

    // Bytes of its own.
    pub(crate) fn of(alloc: Global, bytes: &[u8]) -> Result<PipeBody, NoMemory>
        requires { length bytes.now ≤ 4096 }
        ensures { IfOk result (λ pipe. pipe ≡ record { held = bytes.now; shut = false }) }
    {
        Ok(PipeBody {
            held: BytesMut::copy_from_slice(alloc, bytes)?,
            shut: false,
        })
    }

    pub(crate) fn state(&self) -> HostState
        ensures { result ≡ pipe_state self.now }
    {
        HostState {
            held: self.held.len() as u32,
            shut: self.shut,
        }
    }

    // The first n bytes leave, or all where those are fewer. None of the rest is copied.
    pub(crate) fn take(&mut self, n: u32) -> Result<Chunk, NoMemory>
        ensures front { IfOk result (λ front. front ≡ take n self.old.held) }
        ensures rest { IfOk result (λ front. self.new ≡ record self.old { held = drop (length front) self.old.held }) }
        ensures err { OnErr result (self.new ≡ self.old) }
    {
        let count = (n as usize).min(self.held.len());
        let front = Chunk::new(*self.held.allocator(), &self.held.as_slice()[..count])?;
        self.held.advance(count);
        Ok(front)
    }

    // A pipe that is filled step by step takes time by its bytes: its room grows by a factor.
    pub(crate) fn put(&mut self, bytes: &[u8]) -> Result<(), NoMemory>
        requires { length self.old.held + length bytes.now ≤ 4096 }
        ensures ok { OnOk result (self.new ≡ record self.old { held = self.old.held ++ bytes.now }) }
        ensures err { OnErr result (self.new ≡ self.old) }
    {
        Ok(self.held.extend_from_slice(bytes)?)
    }

    pub(crate) fn shut(&mut self)
        ensures { self.new ≡ record self.old { shut = true } }
    {
        self.shut = true;
    }
}
