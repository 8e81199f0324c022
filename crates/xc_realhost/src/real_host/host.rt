ghost use Rattle.std.specs.Prelude.{false, [], None};
ghost use Rattle.xc_host.specs.Contents.{no_contents};
ghost use Rattle.xc_host.specs.Counting.{calls_of};

use super::RealHost;
use crate::disk::Disk;
use crate::errors::or_host_fault;
use xc_data::{Chunk, HostCallKind, Name, Num, Object, Prologue};
use xc_host::{Fault, Host, HostErr, HostState, OpenErr, Took};

impl<D: Disk + Drop> Host for RealHost<D> {
    ghost model = { record {
      tells = false;
      takes_scripts = false;
      contents = λ _. no_contents;
      fault_count = λ s. s.counts.faults;
      calls = λ s. calls_of s.counts.calls;
      plan = λ _. record { faults = []; grain = None };
    } };

    fn faults(&self) -> u64 {
        self.counts.faults
    }

    fn most_file_bytes(&self) -> u32 {
        u32::MAX
    }

    fn open_with(&mut self, prologue: &Prologue) -> Result<(), OpenErr> {
        if !prologue.objects.is_empty() || !prologue.faults.is_empty() || prologue.grain.is_some() {
            return Err(OpenErr::NotScripted);
        }
        self.begin_anew();
        Ok(())
    }

    fn lookup(&mut self, name: &Name) -> Result<Option<Num>, HostErr> {
        let answer = self.folder.lookup(name);
        self.counts.note_either(HostCallKind::Lookup, answer)
    }

    fn create(&mut self, name: &Name, num: Num) -> Result<(), HostErr> {
        let answer = self.folder.create(name, num);
        self.counts.note_either(HostCallKind::Create, answer)
    }

    fn len(&mut self, file: Num) -> Result<u32, Fault> {
        let answer = self.folder.len(file);
        self.counts.note(HostCallKind::Len, answer)
    }

    fn read_at(&mut self, file: Num, at: u32, n: u32) -> Result<Chunk, HostErr> {
        let answer = self.folder.read_at(file, at, n);
        self.counts.note_either(HostCallKind::ReadAt, answer)
    }

    fn write_at(&mut self, file: Num, at: u32, bytes: &[u8]) -> Result<u32, Fault> {
        let answer = self.folder.write_at(file, at, bytes);
        self.counts.note(HostCallKind::WriteAt, answer)
    }

    fn append(&mut self, file: Num, bytes: &[u8]) -> Result<u32, HostErr> {
        let answer = or_host_fault(self.folder.append(file, bytes));
        self.counts.note_either(HostCallKind::Append, answer)
    }

    fn rename(&mut self, from: &Name, to: &Name) -> Result<(), Fault> {
        let answer = self.folder.rename(from, to);
        self.counts.note(HostCallKind::Rename, answer)
    }

    fn unlink(&mut self, name: &Name) -> Result<(), Fault> {
        let answer = self.folder.unlink(name);
        self.counts.note(HostCallKind::Unlink, answer)
    }

    fn sync(&mut self, file: Num) -> Result<(), Fault> {
        let answer = self.folder.sync(file);
        self.counts.note(HostCallKind::Sync, answer)
    }

    fn new_pipe(&mut self, num: Num) -> Result<(), HostErr> {
        let answer = self.channels.new_pipe(self.folder.disk(), num);
        self.counts.note_either(HostCallKind::NewPipe, answer)
    }

    fn pipe_state(&mut self, pipe: Num) -> Result<HostState, Fault> {
        let answer = self.channels.pipe_state(pipe);
        self.counts.note(HostCallKind::PipeState, answer)
    }

    fn take(&mut self, pipe: Num, n: u32) -> Result<Took, HostErr> {
        let answer = self.channels.take(pipe, n);
        self.counts.note_either(HostCallKind::Take, answer)
    }

    fn put(&mut self, pipe: Num, bytes: &[u8]) -> Result<u32, HostErr> {
        let answer = or_host_fault(self.channels.put(pipe, bytes));
        self.counts.note_either(HostCallKind::Put, answer)
    }

    fn new_pair(&mut self, num: Num) -> Result<(), HostErr> {
        let answer = self.channels.new_pair(self.folder.disk(), num);
        self.counts.note_either(HostCallKind::NewPair, answer)
    }

    fn pair_state(&mut self, pair: Num, side: u8) -> Result<HostState, Fault> {
        let answer = self.channels.pair_state(pair, side);
        self.counts.note(HostCallKind::PairState, answer)
    }

    fn recv(&mut self, pair: Num, side: u8) -> Result<Took, HostErr> {
        let answer = self.channels.recv(pair, side);
        self.counts.note_either(HostCallKind::Recv, answer)
    }

    fn send(&mut self, pair: Num, side: u8, bytes: &[u8]) -> Result<(), HostErr> {
        let answer = or_host_fault(self.channels.send(pair, side, bytes));
        self.counts.note_either(HostCallKind::Send, answer)
    }

    fn shut(&mut self, object: &Object) -> Result<(), Fault> {
        let answer = self.channels.shut(object);
        self.counts.note(HostCallKind::Shut, answer)
    }

    fn restore(&mut self, file: Num, at: u32, bytes: &[u8]) -> Result<u32, Fault> {
        let answer = self.folder.write_at(file, at, bytes);
        self.counts.note(HostCallKind::Restore, answer)
    }

    fn cut(&mut self, file: Num, len: u32) -> Result<(), Fault> {
        let answer = self.folder.cut(file, len);
        self.counts.note(HostCallKind::Cut, answer)
    }

    fn uncreate(&mut self, name: &Name, num: Num) -> Result<(), Fault> {
        let answer = self.folder.uncreate(name, num);
        self.counts.note(HostCallKind::Uncreate, answer)
    }

    fn name_back(&mut self, from: &Name, to: &Name) -> Result<(), Fault> {
        let answer = self.folder.rename(to, from);
        self.counts.note(HostCallKind::NameBack, answer)
    }

    fn drop_pipe(&mut self, num: Num) -> Result<(), Fault> {
        let answer = self.channels.drop_pipe(num);
        self.counts.note(HostCallKind::DropPipe, answer)
    }

    fn drop_pair(&mut self, num: Num) -> Result<(), Fault> {
        let answer = self.channels.drop_pair(num);
        self.counts.note(HostCallKind::DropPair, answer)
    }
}
