ghost use Rattle.std.specs.Prelude.{◌<◌, ◌≤◌, length, IfOk};
ghost use Rattle.std.specs.HashMap.{IsEmpty};
ghost use Rattle.xc_host.specs.Pairs.{IsMessage};
ghost use Rattle.xc_host.specs.Pipes.{IsSomeOf};

use crate::disk::Disk;
use crate::errors::{or_fault, or_host_fault};
use crate::pair::HostPair;
use crate::pipe::HostPipe;
use crate::table::Table;
use std::alloc::Global;
use xc_data::{Num, Object};
use xc_host::{Fault, HostErr, HostState, Took};

/// The pipes and the pairs. A call on one that isn't there is a fault.
#[derive(Drop)]
pub(crate) struct Channels<D: Disk> {
    alloc: Global,
    pipes: Table<HostPipe<D::Reader, D::Writer>>,
    pairs: Table<HostPair>,
}

impl<D: Disk> Channels<D> {
    pub(crate) fn new(alloc: Global) -> Channels<D>
        ensures pipes { IsEmpty result.pipes.rows }
        ensures pairs { IsEmpty result.pairs.rows }
    {
        Channels {
            alloc,
            pipes: Table::new(alloc),
            pairs: Table::new(alloc),
        }
    }

    // None is there any more.
    pub(crate) fn begin_anew(&mut self)
        ensures pipes { IsEmpty self.new.pipes.rows }
        ensures pairs { IsEmpty self.new.pairs.rows }
    {
        *self = Channels::new(self.alloc);
    }

    fn pipe(&mut self, num: Num) -> Result<&mut HostPipe<D::Reader, D::Writer>, Fault> {
        self.pipes.of(num).ok_or(Fault)
    }

    fn pair(&mut self, num: Num) -> Result<&mut HostPair, Fault> {
        self.pairs.of(num).ok_or(Fault)
    }

    pub(crate) fn new_pipe(&mut self, disk: &D, num: Num) -> Result<(), HostErr> {
        self.pipes.reserve()?;
        let (reader, writer) = or_host_fault(or_fault(disk.pipe()))?;
        self.pipes
            .add(num, HostPipe::new(reader, writer, self.alloc));
        Ok(())
    }

    pub(crate) fn pipe_state(&mut self, pipe: Num) -> Result<HostState, Fault> {
        Ok(self.pipe(pipe)?.state())
    }

    pub(crate) fn take(&mut self, pipe: Num, n: u32) -> Result<Took, HostErr>
        requires some { 0 < n }
        ensures bound { IfOk result (IsSomeOf n) }
    {
        let alloc = self.alloc;
        match self.pipes.of(pipe) {
            Some(pipe) => pipe.take(alloc, n),
            None => Err(HostErr::Fault),
        }
    }

    pub(crate) fn put(&mut self, pipe: Num, bytes: &[u8]) -> Result<u32, Fault>
        requires some { 0 < length bytes.now }
        ensures bound { IfOk result (λ n. (0 < n) × (n ≤ length bytes.now)) }
    {
        self.pipe(pipe)?.put(bytes)
    }

    pub(crate) fn new_pair(&mut self, disk: &D, num: Num) -> Result<(), HostErr> {
        self.pairs.reserve()?;
        let pair = or_host_fault(HostPair::new(disk, self.alloc))?;
        self.pairs.add(num, pair);
        Ok(())
    }

    pub(crate) fn pair_state(&mut self, pair: Num, side: u8) -> Result<HostState, Fault> {
        Ok(self.pair(pair)?.state(side))
    }

    pub(crate) fn recv(&mut self, pair: Num, side: u8) -> Result<Took, HostErr>
        ensures bound { IfOk result IsMessage }
    {
        let alloc = self.alloc;
        match self.pairs.of(pair) {
            Some(pair) => pair.recv(alloc, side),
            None => Err(HostErr::Fault),
        }
    }

    pub(crate) fn send(&mut self, pair: Num, side: u8, bytes: &[u8]) -> Result<(), Fault>
        requires few { length bytes.now ≤ 1024 }
    {
        self.pair(pair)?.send(side, bytes)
    }

    pub(crate) fn shut(&mut self, object: &Object) -> Result<(), Fault> {
        match object {
            Object::Pipe(num) => self.pipe(*num)?.shut(),
            Object::Pair(num) => self.pair(*num)?.shut(),
            Object::Word(_) | Object::Name(_) | Object::File(_) | Object::Jobs => {
                return Err(Fault);
            }
        }
        Ok(())
    }

    pub(crate) fn drop_pipe(&mut self, num: Num) -> Result<(), Fault> {
        self.pipe(num)?;
        self.pipes.remove(num);
        Ok(())
    }

    pub(crate) fn drop_pair(&mut self, num: Num) -> Result<(), Fault> {
        self.pair(num)?;
        self.pairs.remove(num);
        Ok(())
    }
}
