ghost use Rattle.std.specs.Prelude.{false, [], None};
ghost use Rattle.xc_host.specs.Contents.{no_contents};
ghost use Rattle.xc_host.specs.Counting.{calls_of};

use super::{AskedCall, TestHost};
use xc_data::{Chunk, HostCallKind, MOST_FILE_BYTES, Name, Num, Object, Prologue};
use xc_host::{Fault, Host, HostErr, HostState, KindCounts, OpenErr, Took};

impl Host for TestHost {
    ghost model = { record {
      tells = false;
      takes_scripts = false;
      contents = λ _. no_contents;
      fault_count = λ s. s.faults;
      calls = λ s. calls_of s.calls;
      plan = λ _. record { faults = []; grain = None };
    } };

    fn faults(&self) -> u64 {
        self.faults
    }

    fn most_file_bytes(&self) -> u32 {
        MOST_FILE_BYTES as u32
    }

    fn open_with(&mut self, prologue: &Prologue) -> Result<(), OpenErr> {
        if !prologue.objects.is_empty() || !prologue.faults.is_empty() || prologue.grain.is_some() {
            return Err(OpenErr::NotScripted);
        }
        self.calls = KindCounts::none();
        Ok(())
    }

    fn lookup(&mut self, name: &Name) -> Result<Option<Num>, HostErr> {
        if self.fails(AskedCall::plain(HostCallKind::Lookup)) {
            return Err(HostErr::Fault);
        }
        if self.starves {
            return Err(HostErr::NoMemory);
        }
        Ok(self.named(name))
    }

    fn create(&mut self, name: &Name, num: Num) -> Result<(), HostErr> {
        if self.fails(AskedCall::plain(HostCallKind::Create)) {
            return Err(HostErr::Fault);
        }
        Ok(self.names.push((*name, num))?)
    }

    fn len(&mut self, file: Num) -> Result<u32, Fault> {
        if self.fails(AskedCall::plain(HostCallKind::Len)) {
            return Err(Fault);
        }
        let len = self.opened(file) as usize + self.tail(file).len();
        Ok(len.min(u32::MAX as usize) as u32)
    }

    fn read_at(&mut self, file: Num, at: u32, n: u32) -> Result<Chunk, HostErr> {
        if self.fails(AskedCall::new(HostCallKind::ReadAt, at, n as usize)) {
            return Err(HostErr::Fault);
        }
        let n = n.min(self.grain) as usize;
        Ok(Chunk::new(self.alloc, self.front(file, at, n))?)
    }

    fn write_at(&mut self, file: Num, at: u32, bytes: &[u8]) -> Result<u32, Fault> {
        if self.fails(AskedCall::new(HostCallKind::WriteAt, at, bytes.len())) {
            return Err(Fault);
        }
        Ok(self.write(file, at, bytes))
    }

    fn append(&mut self, file: Num, bytes: &[u8]) -> Result<u32, HostErr> {
        if self.fails(AskedCall::new(HostCallKind::Append, 0, bytes.len())) {
            return Err(HostErr::Fault);
        }
        let n = self.grained(bytes);
        self.tails.append(file, &bytes[..n])?;
        Ok(n as u32)
    }

    fn rename(&mut self, from: &Name, to: &Name) -> Result<(), Fault> {
        if self.fails(AskedCall::plain(HostCallKind::Rename)) {
            return Err(Fault);
        }
        self.change_name(from, to);
        Ok(())
    }

    fn unlink(&mut self, name: &Name) -> Result<(), Fault> {
        if self.fails(AskedCall::plain(HostCallKind::Unlink)) {
            return Err(Fault);
        }
        self.names.retain(|entry| entry.0 != *name);
        Ok(())
    }

    fn sync(&mut self, _file: Num) -> Result<(), Fault> {
        if self.fails(AskedCall::plain(HostCallKind::Sync)) {
            return Err(Fault);
        }
        Ok(())
    }

    fn new_pipe(&mut self, num: Num) -> Result<(), HostErr> {
        if self.fails(AskedCall::plain(HostCallKind::NewPipe)) {
            return Err(HostErr::Fault);
        }
        Ok(self.pipes.make(num)?)
    }

    fn pipe_state(&mut self, pipe: Num) -> Result<HostState, Fault> {
        if self.fails(AskedCall::plain(HostCallKind::PipeState)) {
            return Err(Fault);
        }
        Ok(self.pipes.state(pipe))
    }

    fn take(&mut self, pipe: Num, n: u32) -> Result<Took, HostErr> {
        if self.fails(AskedCall::new(HostCallKind::Take, 0, n as usize)) {
            return Err(HostErr::Fault);
        }
        Ok(self.pipes.take(pipe, n.min(self.grain).max(1))?)
    }

    fn put(&mut self, pipe: Num, bytes: &[u8]) -> Result<u32, HostErr> {
        if self.fails(AskedCall::new(HostCallKind::Put, 0, bytes.len())) {
            return Err(HostErr::Fault);
        }
        let n = self.grained(bytes);
        self.pipes.put(pipe, &bytes[..n])?;
        Ok(n as u32)
    }

    fn new_pair(&mut self, num: Num) -> Result<(), HostErr> {
        if self.fails(AskedCall::plain(HostCallKind::NewPair)) {
            return Err(HostErr::Fault);
        }
        Ok(self.pairs.make(num)?)
    }

    fn pair_state(&mut self, pair: Num, side: u8) -> Result<HostState, Fault> {
        if self.fails(AskedCall::plain(HostCallKind::PairState)) {
            return Err(Fault);
        }
        Ok(self.pairs.state(pair, side))
    }

    fn recv(&mut self, pair: Num, side: u8) -> Result<Took, HostErr> {
        if self.fails(AskedCall::plain(HostCallKind::Recv)) {
            return Err(HostErr::Fault);
        }
        Ok(self.pairs.recv(pair, side))
    }

    fn send(&mut self, pair: Num, side: u8, bytes: &[u8]) -> Result<(), HostErr> {
        if self.fails(AskedCall::new(HostCallKind::Send, 0, bytes.len())) {
            return Err(HostErr::Fault);
        }
        Ok(self.pairs.send(pair, side, bytes)?)
    }

    fn shut(&mut self, object: &Object) -> Result<(), Fault> {
        if self.fails(AskedCall::plain(HostCallKind::Shut)) {
            return Err(Fault);
        }
        match object {
            Object::Pipe(num) => self.pipes.shut(*num),
            Object::Pair(num) => self.pairs.shut(*num),
            Object::Word(_) | Object::Name(_) | Object::File(_) | Object::Jobs => {}
        }
        Ok(())
    }

    fn restore(&mut self, file: Num, at: u32, bytes: &[u8]) -> Result<u32, Fault> {
        if self.fails(AskedCall::new(HostCallKind::Restore, at, bytes.len())) {
            return Err(Fault);
        }
        Ok(self.write(file, at, bytes))
    }

    fn cut(&mut self, file: Num, len: u32) -> Result<(), Fault> {
        if self.fails(AskedCall::new(HostCallKind::Cut, len, 0)) {
            return Err(Fault);
        }
        let opened = self.opened(file);
        self.tails.cut(file, len.saturating_sub(opened) as usize);
        Ok(())
    }

    fn uncreate(&mut self, name: &Name, num: Num) -> Result<(), Fault> {
        if self.fails(AskedCall::plain(HostCallKind::Uncreate)) {
            return Err(Fault);
        }
        self.names.retain(|entry| entry.0 != *name);
        self.tails.remove(num);
        Ok(())
    }

    fn name_back(&mut self, from: &Name, to: &Name) -> Result<(), Fault> {
        if self.fails(AskedCall::plain(HostCallKind::NameBack)) {
            return Err(Fault);
        }
        self.change_name(to, from);
        Ok(())
    }

    fn drop_pipe(&mut self, num: Num) -> Result<(), Fault> {
        if self.fails(AskedCall::plain(HostCallKind::DropPipe)) {
            return Err(Fault);
        }
        self.pipes.remove(num);
        Ok(())
    }

    fn drop_pair(&mut self, num: Num) -> Result<(), Fault> {
        if self.fails(AskedCall::plain(HostCallKind::DropPair)) {
            return Err(Fault);
        }
        self.pairs.remove(num);
        Ok(())
    }
}
