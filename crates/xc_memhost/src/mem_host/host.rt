ghost use Rattle.std.specs.Prelude.{◌≡◌, ◌≤◌, ◌<◌, ◌+◌, true, false, length, take, is_some, None, Some};
ghost use Rattle.std.specs.Prelude.{IfOk, OnOk, OnErr, IsErrOf, is_err};
ghost use Rattle.std.specs.FinMap as map;
ghost use Rattle.xc_data.specs.Limits.{IsPrologue};
ghost use Rattle.xc_host.specs.Cause.{is_fault, without_memory};
ghost use Rattle.xc_host.specs.Contents.{file_in, has_file, wrote, appended, shortened, created, uncreated, renamed, unnamed};
ghost use Rattle.xc_host.specs.Fronts.{IsFront};
ghost use Rattle.xc_host.specs.Model.{Answers};
ghost use Rattle.xc_memhost.specs.State.{opened_state, mem_host_model};
ghost use Rattle.xc_memhost.specs.Faults.{is_listed, call_begun};
ghost use Rattle.xc_host.specs.Contents.{world_of};
ghost use Rattle.xc_host.specs.Pipes.{pipe_in, has_pipe, with_new_pipe, put_into, shut_in, without_pipe};
ghost use Rattle.xc_host.specs.Pipes.{pipe_state, IsTakenOf, IsSomeOf, after_take, is_shuttable};
ghost use Rattle.xc_host.specs.Pairs.{IsMessage, IsReceivedOf, after_receipt, has_pair, pair_in, sent_from, side_state};
ghost use Rattle.xc_host.specs.Pairs.{with_new_pair, without_pair};
ghost use Rattle.xc_world.specs.World.{other_side, waiting};
ghost use Rattle.xc_memhost.specs.Machine.{read_front, written_count, written, lengthened, pipe_take, filled, pair_take};
ghost use Rattle.xc_world.specs.Sound.{is_there};

use super::MemHost;
use crate::faults::{Faults, grained};
use crate::objects::HostObjects;
use xc_data::{Chunk, HostCallKind, MOST_FILE_BYTES, Name, Num, Object, Prologue};
use xc_host::{Fault, Host, HostErr, HostState, KindCounts, OpenErr, Took};

impl Host for MemHost {
    ghost model = { mem_host_model };

    fn faults(&self) -> u64 {
        self.faults
    }

    fn most_file_bytes(&self) -> u32 {
        MOST_FILE_BYTES as u32
    }

    fn open_with(&mut self, prologue: &Prologue) -> Result<(), OpenErr>
        requires { IsPrologue prologue.now }
        // All counts of calls begin anew.
        ensures state { OnOk result (self.new ≡ opened_state prologue.now self.old.fault_count) }
        ensures unchanged { OnErr result (self.new ≡ self.old) }
        ensures refused { IsErrOf result OpenErr.NotScripted → ⊥ }
    {
        let objects = HostObjects::of(self.alloc, prologue.objects.as_slice())?;
        let lines = Faults::of(self.alloc, prologue.faults.as_slice())?;
        self.objects = objects;
        self.lines = lines;
        self.grain = prologue.grain;
        self.calls = KindCounts::none();
        Ok(())
    }

    fn lookup(&mut self, name: &Name) -> Result<Option<Num>, HostErr>
        ensures value { IfOk result (λ found. found ≡ map.get self.old.contents.names name.now) }
        ensures answered { Answers mem_host_model HostCallKind.Lookup (record { old = self.old; new = self.new }) result (λ found c. c) }

        // Exactly the listed calls fail, and none runs out of memory.
        ensures fault { is_fault result ≡ is_listed HostCallKind.Lookup self.old }
        ensures answers { is_err result ≡ is_listed HostCallKind.Lookup self.old }
        ensures state { self.new ≡ call_begun HostCallKind.Lookup self.old }
    {
        if self.fails(HostCallKind::Lookup) {
            return Err(HostErr::Fault);
        }
        self.objects.settle();
        Ok(self.objects.find(*name))
    }

    fn create(&mut self, name: &Name, num: Num) -> Result<(), HostErr>
        requires absent { map.get self.old.contents.names name.now ≡ None }
        requires new { has_file self.old.contents num ≡ false }
        ensures answered { Answers mem_host_model HostCallKind.Create (record { old = self.old; new = self.new }) result
            (λ _ c. created c name.now num) }

        // Exactly the listed calls fail. Without memory a call was counted, and nothing else.
        ensures fault { is_fault result ≡ is_listed HostCallKind.Create self.old }
        ensures state { OnOk result
            (self.new ≡ record (call_begun HostCallKind.Create self.old) { contents = created self.old.contents name.now num }) }
        ensures failed { OnErr result (self.new ≡ call_begun HostCallKind.Create self.old) }
    {
        if self.fails(HostCallKind::Create) {
            return Err(HostErr::Fault);
        }
        Ok(self.objects.create(*name, num)?)
    }

    fn len(&mut self, file: Num) -> Result<u32, Fault>
        requires there { has_file self.old.contents file ≡ true }
        ensures value { IfOk result (λ n. n ≡ length (file_in self.old.contents file)) }
        ensures answered { Answers mem_host_model HostCallKind.Len (record { old = self.old; new = self.new }) (without_memory result)
            (λ n c. c) }

        // Exactly the listed calls fail.
        ensures fault { is_err result ≡ is_listed HostCallKind.Len self.old }
        ensures state { self.new ≡ call_begun HostCallKind.Len self.old }
    {
        if self.fails(HostCallKind::Len) {
            return Err(Fault);
        }
        Ok(self.objects.len(file))
    }

    fn read_at(&mut self, file: Num, at: u32, n: u32) -> Result<Chunk, HostErr>
        requires there { has_file self.old.contents file ≡ true }
        ensures bound { IfOk result (λ front. length front ≤ n) }
        ensures value { IfOk result (λ front. IsFront (file_in self.old.contents file) at n front) }
        ensures answered { Answers mem_host_model HostCallKind.ReadAt (record { old = self.old; new = self.new }) result (λ front c. c) }

        // Exactly the listed calls fail, and the grain says how many bytes a read gives.
        ensures fault { is_fault result ≡ is_listed HostCallKind.ReadAt self.old }
        ensures front { IfOk result (λ front. front ≡ read_front self.old file at n) }
        ensures state { self.new ≡ call_begun HostCallKind.ReadAt self.old }
    {
        if self.fails(HostCallKind::ReadAt) {
            return Err(HostErr::Fault);
        }
        let n = grained(self.grain, n);
        Ok(Chunk::new(self.alloc, self.objects.front(file, at, n))?)
    }

    fn write_at(&mut self, file: Num, at: u32, bytes: &[u8]) -> Result<u32, Fault>
        requires there { has_file self.old.contents file ≡ true }
        requires inside { at + length bytes.now ≤ length (file_in self.old.contents file) }
        requires some { 0 < length bytes.now }
        ensures bound { IfOk result (λ n. (0 < n) × (n ≤ length bytes.now)) }
        ensures answered { Answers mem_host_model HostCallKind.WriteAt (record { old = self.old; new = self.new }) (without_memory result)
            (λ n c. wrote c file at (take n bytes.now)) }

        // Exactly the listed calls fail, and the grain says how many bytes a write does.
        ensures fault { is_err result ≡ is_listed HostCallKind.WriteAt self.old }
        ensures size { IfOk result (λ n. n ≡ written_count self.old bytes.now) }
        ensures state { OnOk result
            (self.new ≡ record (call_begun HostCallKind.WriteAt self.old) { contents = written self.old file at bytes.now }) }
        ensures failed { OnErr result (self.new ≡ call_begun HostCallKind.WriteAt self.old) }
    {
        if self.fails(HostCallKind::WriteAt) {
            return Err(Fault);
        }
        Ok(self.write(file, at, bytes))
    }

    fn append(&mut self, file: Num, bytes: &[u8]) -> Result<u32, HostErr>
        requires there { has_file self.old.contents file ≡ true }
        requires fits { length (file_in self.old.contents file) + length bytes.now ≤ 65536 }
        requires some { 0 < length bytes.now }
        ensures bound { IfOk result (λ n. (0 < n) × (n ≤ length bytes.now)) }
        ensures answered { Answers mem_host_model HostCallKind.Append (record { old = self.old; new = self.new }) result
            (λ n c. appended c file (take n bytes.now)) }

        // Exactly the listed calls fail, and the grain says how many bytes one does. Without memory a call was
        // counted, and nothing else.
        ensures fault { is_fault result ≡ is_listed HostCallKind.Append self.old }
        ensures size { IfOk result (λ n. n ≡ written_count self.old bytes.now) }
        ensures state { OnOk result
            (self.new ≡ record (call_begun HostCallKind.Append self.old) { contents = lengthened self.old file bytes.now }) }
        ensures failed { OnErr result (self.new ≡ call_begun HostCallKind.Append self.old) }
    {
        if self.fails(HostCallKind::Append) {
            return Err(HostErr::Fault);
        }
        Ok(self.lengthen(file, bytes)?)
    }

    fn rename(&mut self, from: &Name, to: &Name) -> Result<(), Fault>
        requires there { is_some (map.get self.old.contents.names from.now) ≡ true }
        requires absent { map.get self.old.contents.names to.now ≡ None }
        ensures answered { Answers mem_host_model HostCallKind.Rename (record { old = self.old; new = self.new }) (without_memory result)
            (λ _ c. renamed c from.now to.now) }

        // Exactly the listed calls fail.
        ensures fault { is_err result ≡ is_listed HostCallKind.Rename self.old }
        ensures state { OnOk result
            (self.new ≡ record (call_begun HostCallKind.Rename self.old) { contents = renamed self.old.contents from.now to.now }) }
        ensures failed { OnErr result (self.new ≡ call_begun HostCallKind.Rename self.old) }
    {
        if self.fails(HostCallKind::Rename) {
            return Err(Fault);
        }
        self.objects.rename(*from, *to);
        Ok(())
    }

    fn unlink(&mut self, name: &Name) -> Result<(), Fault>
        requires there { is_some (map.get self.old.contents.names name.now) ≡ true }
        ensures answered { Answers mem_host_model HostCallKind.Unlink (record { old = self.old; new = self.new }) (without_memory result)
            (λ _ c. unnamed c name.now) }

        // Exactly the listed calls fail.
        ensures fault { is_err result ≡ is_listed HostCallKind.Unlink self.old }
        ensures state { OnOk result
            (self.new ≡ record (call_begun HostCallKind.Unlink self.old) { contents = unnamed self.old.contents name.now }) }
        ensures failed { OnErr result (self.new ≡ call_begun HostCallKind.Unlink self.old) }
    {
        if self.fails(HostCallKind::Unlink) {
            return Err(Fault);
        }
        self.objects.unlink(*name);
        Ok(())
    }

    fn sync(&mut self, file: Num) -> Result<(), Fault>
        requires there { has_file self.old.contents file ≡ true }
        ensures answered { Answers mem_host_model HostCallKind.Sync (record { old = self.old; new = self.new }) (without_memory result)
            (λ _ c. c) }

        // Exactly the listed calls fail, and none changes more than the counts.
        ensures fault { is_err result ≡ is_listed HostCallKind.Sync self.old }
        ensures state { self.new ≡ call_begun HostCallKind.Sync self.old }
    {
        if self.fails(HostCallKind::Sync) {
            return Err(Fault);
        }
        Ok(())
    }

    fn new_pipe(&mut self, num: Num) -> Result<(), HostErr>
        requires new { has_pipe self.old.contents num ≡ false }
        ensures answered { Answers mem_host_model HostCallKind.NewPipe (record { old = self.old; new = self.new }) result
            (λ _ c. with_new_pipe c num) }

        // Exactly the listed calls fail. Without memory a call was counted, and nothing else.
        ensures fault { is_fault result ≡ is_listed HostCallKind.NewPipe self.old }
        ensures state { OnOk result
            (self.new ≡ record (call_begun HostCallKind.NewPipe self.old) { contents = with_new_pipe self.old.contents num }) }
        ensures failed { OnErr result (self.new ≡ call_begun HostCallKind.NewPipe self.old) }
    {
        if self.fails(HostCallKind::NewPipe) {
            return Err(HostErr::Fault);
        }
        Ok(self.objects.new_pipe(num)?)
    }

    fn pipe_state(&mut self, pipe: Num) -> Result<HostState, Fault>
        requires there { has_pipe self.old.contents pipe ≡ true }
        ensures value { IfOk result (λ state. state ≡ pipe_state (pipe_in self.old.contents pipe)) }
        ensures answered { Answers mem_host_model HostCallKind.PipeState (record { old = self.old; new = self.new }) (without_memory result)
            (λ state c. c) }

        // Exactly the listed calls fail.
        ensures fault { is_err result ≡ is_listed HostCallKind.PipeState self.old }
        ensures state { self.new ≡ call_begun HostCallKind.PipeState self.old }
    {
        if self.fails(HostCallKind::PipeState) {
            return Err(Fault);
        }
        Ok(self.objects.pipe_state(pipe))
    }

    fn take(&mut self, pipe: Num, n: u32) -> Result<Took, HostErr>
        requires there { has_pipe self.old.contents pipe ≡ true }
        requires some { 0 < n }
        ensures bound { IfOk result (IsSomeOf n) }
        ensures value { IfOk result (IsTakenOf (pipe_in self.old.contents pipe)) }
        ensures answered { Answers mem_host_model HostCallKind.Take (record { old = self.old; new = self.new }) result (after_take pipe) }

        // Exactly the listed calls fail, and the grain says how many bytes a take gives. Without memory a call
        // was counted, and nothing else.
        ensures fault { is_fault result ≡ is_listed HostCallKind.Take self.old }
        ensures front { IfOk result (λ took. took ≡ pipe_take self.old pipe n) }
        ensures state { OnOk result
            (self.new
            ≡ record (call_begun HostCallKind.Take self.old)
            { contents = after_take pipe (pipe_take self.old pipe n) self.old.contents }) }
        ensures failed { OnErr result (self.new ≡ call_begun HostCallKind.Take self.old) }
    {
        if self.fails(HostCallKind::Take) {
            return Err(HostErr::Fault);
        }
        Ok(self.take_front(pipe, n)?)
    }

    fn put(&mut self, pipe: Num, bytes: &[u8]) -> Result<u32, HostErr>
        requires there { has_pipe self.old.contents pipe ≡ true }
        requires unshut { (pipe_in self.old.contents pipe).shut ≡ false }
        requires fits { length (pipe_in self.old.contents pipe).held + length bytes.now ≤ 4096 }
        requires some { 0 < length bytes.now }
        ensures bound { IfOk result (λ n. (0 < n) × (n ≤ length bytes.now)) }
        ensures answered { Answers mem_host_model HostCallKind.Put (record { old = self.old; new = self.new }) result
            (λ n c. put_into c pipe (take n bytes.now)) }

        // Exactly the listed calls fail, and the grain says how many bytes one puts. Without memory a call was
        // counted, and nothing else.
        ensures fault { is_fault result ≡ is_listed HostCallKind.Put self.old }
        ensures size { IfOk result (λ n. n ≡ written_count self.old bytes.now) }
        ensures state { OnOk result
            (self.new ≡ record (call_begun HostCallKind.Put self.old) { contents = filled self.old pipe bytes.now }) }
        ensures failed { OnErr result (self.new ≡ call_begun HostCallKind.Put self.old) }
    {
        if self.fails(HostCallKind::Put) {
            return Err(HostErr::Fault);
        }
        Ok(self.fill(pipe, bytes)?)
    }

    fn new_pair(&mut self, num: Num) -> Result<(), HostErr>
        requires new { has_pair self.old.contents num ≡ false }
        ensures answered { Answers mem_host_model HostCallKind.NewPair (record { old = self.old; new = self.new }) result
            (λ _ c. with_new_pair c num) }

        // Exactly the listed calls fail. Without memory a call was counted, and nothing else.
        ensures fault { is_fault result ≡ is_listed HostCallKind.NewPair self.old }
        ensures state { OnOk result
            (self.new ≡ record (call_begun HostCallKind.NewPair self.old) { contents = with_new_pair self.old.contents num }) }
        ensures failed { OnErr result (self.new ≡ call_begun HostCallKind.NewPair self.old) }
    {
        if self.fails(HostCallKind::NewPair) {
            return Err(HostErr::Fault);
        }
        Ok(self.objects.new_pair(num)?)
    }

    fn pair_state(&mut self, pair: Num, side: u8) -> Result<HostState, Fault>
        requires there { has_pair self.old.contents pair ≡ true }
        requires side { side < 2 }
        ensures value { IfOk result (λ state. state ≡ side_state (pair_in self.old.contents pair) side) }
        ensures answered { Answers mem_host_model HostCallKind.PairState (record { old = self.old; new = self.new }) (without_memory result)
            (λ state c. c) }

        // Exactly the listed calls fail.
        ensures fault { is_err result ≡ is_listed HostCallKind.PairState self.old }
        ensures state { self.new ≡ call_begun HostCallKind.PairState self.old }
    {
        if self.fails(HostCallKind::PairState) {
            return Err(Fault);
        }
        Ok(self.objects.pair_state(pair, side))
    }

    fn recv(&mut self, pair: Num, side: u8) -> Result<Took, HostErr>
        requires there { has_pair self.old.contents pair ≡ true }
        requires side { side < 2 }
        ensures bound { IfOk result IsMessage }
        ensures value { IfOk result (IsReceivedOf (pair_in self.old.contents pair) side) }
        ensures answered { Answers mem_host_model HostCallKind.Recv (record { old = self.old; new = self.new }) result
            (after_receipt pair side) }

        // Exactly the listed calls fail, and a receipt gives exactly the first message. It takes no memory.
        ensures fault { is_fault result ≡ is_listed HostCallKind.Recv self.old }
        ensures first { IfOk result (λ took. took ≡ pair_take self.old pair side) }
        ensures state { OnOk result
            (self.new ≡ record (call_begun HostCallKind.Recv self.old)
            { contents = after_receipt pair side (pair_take self.old pair side) self.old.contents }) }
        ensures failed { OnErr result (self.new ≡ call_begun HostCallKind.Recv self.old) }
    {
        if self.fails(HostCallKind::Recv) {
            return Err(HostErr::Fault);
        }
        Ok(self.objects.recv(pair, side))
    }

    fn send(&mut self, pair: Num, side: u8, bytes: &[u8]) -> Result<(), HostErr>
        requires there { has_pair self.old.contents pair ≡ true }
        requires side { side < 2 }
        requires unshut { (pair_in self.old.contents pair).shut ≡ false }
        requires fits { length (waiting (pair_in self.old.contents pair) (other_side side)) < 8 }
        requires few { length bytes.now ≤ 1024 }
        ensures answered { Answers mem_host_model HostCallKind.Send (record { old = self.old; new = self.new }) result
            (λ _ c. sent_from c pair side bytes.now) }

        // Exactly the listed calls fail. Without memory a call was counted, and nothing else.
        ensures fault { is_fault result ≡ is_listed HostCallKind.Send self.old }
        ensures state { OnOk result
            (self.new ≡ record (call_begun HostCallKind.Send self.old) { contents = sent_from self.old.contents pair side bytes.now }) }
        ensures failed { OnErr result (self.new ≡ call_begun HostCallKind.Send self.old) }
    {
        if self.fails(HostCallKind::Send) {
            return Err(HostErr::Fault);
        }
        let message = Chunk::new(self.alloc, bytes)?;
        Ok(self.objects.send(pair, side, message)?)
    }

    fn shut(&mut self, object: &Object) -> Result<(), Fault>
        requires shuttable { is_shuttable object.now ≡ true }
        requires there { is_there (world_of self.old.contents) object.now ≡ true }
        ensures answered { Answers mem_host_model HostCallKind.Shut (record { old = self.old; new = self.new }) (without_memory result)
            (λ _ c. shut_in c object.now) }

        // Exactly the listed calls fail.
        ensures fault { is_err result ≡ is_listed HostCallKind.Shut self.old }
        ensures state { OnOk result
            (self.new ≡ record (call_begun HostCallKind.Shut self.old) { contents = shut_in self.old.contents object.now }) }
        ensures failed { OnErr result (self.new ≡ call_begun HostCallKind.Shut self.old) }
    {
        if self.fails(HostCallKind::Shut) {
            return Err(Fault);
        }
        self.objects.shut(object);
        Ok(())
    }

    fn restore(&mut self, file: Num, at: u32, bytes: &[u8]) -> Result<u32, Fault>
        requires there { has_file self.old.contents file ≡ true }
        requires inside { at + length bytes.now ≤ length (file_in self.old.contents file) }
        requires some { 0 < length bytes.now }
        ensures bound { IfOk result (λ n. (0 < n) × (n ≤ length bytes.now)) }
        ensures answered { Answers mem_host_model HostCallKind.Restore (record { old = self.old; new = self.new }) (without_memory result)
            (λ n c. wrote c file at (take n bytes.now)) }

        // As a write.
        ensures fault { is_err result ≡ is_listed HostCallKind.Restore self.old }
        ensures size { IfOk result (λ n. n ≡ written_count self.old bytes.now) }
        ensures state { OnOk result
            (self.new ≡ record (call_begun HostCallKind.Restore self.old) { contents = written self.old file at bytes.now }) }
        ensures failed { OnErr result (self.new ≡ call_begun HostCallKind.Restore self.old) }
    {
        if self.fails(HostCallKind::Restore) {
            return Err(Fault);
        }
        Ok(self.write(file, at, bytes))
    }

    fn cut(&mut self, file: Num, len: u32) -> Result<(), Fault>
        requires there { has_file self.old.contents file ≡ true }
        requires within { len ≤ length (file_in self.old.contents file) }
        ensures answered { Answers mem_host_model HostCallKind.Cut (record { old = self.old; new = self.new }) (without_memory result)
            (λ _ c. shortened c file len) }

        // Exactly the listed calls fail.
        ensures fault { is_err result ≡ is_listed HostCallKind.Cut self.old }
        ensures state { OnOk result
            (self.new ≡ record (call_begun HostCallKind.Cut self.old) { contents = shortened self.old.contents file len }) }
        ensures failed { OnErr result (self.new ≡ call_begun HostCallKind.Cut self.old) }
    {
        if self.fails(HostCallKind::Cut) {
            return Err(Fault);
        }
        self.objects.cut(file, len);
        Ok(())
    }

    fn uncreate(&mut self, name: &Name, num: Num) -> Result<(), Fault>
        requires named { map.get self.old.contents.names name.now ≡ Some num }
        requires there { has_file self.old.contents num ≡ true }
        ensures answered { Answers mem_host_model HostCallKind.Uncreate (record { old = self.old; new = self.new }) (without_memory result)
            (λ _ c. uncreated c name.now num) }

        // Exactly the listed calls fail.
        ensures fault { is_err result ≡ is_listed HostCallKind.Uncreate self.old }
        ensures state { OnOk result
            (self.new ≡ record (call_begun HostCallKind.Uncreate self.old) { contents = uncreated self.old.contents name.now num }) }
        ensures failed { OnErr result (self.new ≡ call_begun HostCallKind.Uncreate self.old) }
    {
        if self.fails(HostCallKind::Uncreate) {
            return Err(Fault);
        }
        self.objects.uncreate(*name, num);
        Ok(())
    }

    fn name_back(&mut self, from: &Name, to: &Name) -> Result<(), Fault>
        requires there { is_some (map.get self.old.contents.names to.now) ≡ true }
        requires absent { map.get self.old.contents.names from.now ≡ None }
        ensures answered { Answers mem_host_model HostCallKind.NameBack (record { old = self.old; new = self.new }) (without_memory result)
            (λ _ c. renamed c to.now from.now) }

        // As a renaming.
        ensures fault { is_err result ≡ is_listed HostCallKind.NameBack self.old }
        ensures state { OnOk result
            (self.new ≡ record (call_begun HostCallKind.NameBack self.old) { contents = renamed self.old.contents to.now from.now }) }
        ensures failed { OnErr result (self.new ≡ call_begun HostCallKind.NameBack self.old) }
    {
        if self.fails(HostCallKind::NameBack) {
            return Err(Fault);
        }
        self.objects.rename(*to, *from);
        Ok(())
    }

    fn drop_pipe(&mut self, num: Num) -> Result<(), Fault>
        requires there { has_pipe self.old.contents num ≡ true }
        ensures answered { Answers mem_host_model HostCallKind.DropPipe (record { old = self.old; new = self.new }) (without_memory result)
            (λ _ c. without_pipe c num) }

        // Exactly the listed calls fail.
        ensures fault { is_err result ≡ is_listed HostCallKind.DropPipe self.old }
        ensures state { OnOk result
            (self.new ≡ record (call_begun HostCallKind.DropPipe self.old) { contents = without_pipe self.old.contents num }) }
        ensures failed { OnErr result (self.new ≡ call_begun HostCallKind.DropPipe self.old) }
    {
        if self.fails(HostCallKind::DropPipe) {
            return Err(Fault);
        }
        self.objects.drop_pipe(num);
        Ok(())
    }

    fn drop_pair(&mut self, num: Num) -> Result<(), Fault>
        requires there { has_pair self.old.contents num ≡ true }
        ensures answered { Answers mem_host_model HostCallKind.DropPair (record { old = self.old; new = self.new }) (without_memory result)
            (λ _ c. without_pair c num) }

        // Exactly the listed calls fail.
        ensures fault { is_err result ≡ is_listed HostCallKind.DropPair self.old }
        ensures state { OnOk result
            (self.new ≡ record (call_begun HostCallKind.DropPair self.old) { contents = without_pair self.old.contents num }) }
        ensures failed { OnErr result (self.new ≡ call_begun HostCallKind.DropPair self.old) }
    {
        if self.fails(HostCallKind::DropPair) {
            return Err(Fault);
        }
        self.objects.drop_pair(num);
        Ok(())
    }
}
