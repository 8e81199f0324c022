ghost use Rattle.std.specs.Prelude.{◌≡◌, ◌↔◌, ◌<◌, ◌≤◌, ◌+◌, ◌&&◌, true, false, None, Some, is_some};
ghost use Rattle.std.specs.Prelude.{not, length, take, IfOk, OnOk, OnErr, IsErrOf, IsTrue};
ghost use Rattle.std.specs.FinMap as map;
ghost use Rattle.xc_data.specs.Limits.{IsPrologue};
ghost use Rattle.xc_data.specs.declared.script.HostCallKind.TheVariants as HostCallKind;
ghost use Rattle.xc_host.specs.Cause.{without_memory};
ghost use Rattle.xc_host.specs.Contents.{file_in, has_file, wrote, appended, shortened, created, uncreated, renamed, opened};
ghost use Rattle.xc_host.specs.Contents.{world_of, unnamed, needs_scripted};
ghost use Rattle.xc_host.specs.Fronts.{IsFront};
ghost use Rattle.xc_host.specs.Model.{Answers, HostModel, plan_of};
ghost use Rattle.xc_host.specs.Pipes.{pipe_in, has_pipe, with_new_pipe, put_into, shut_in, without_pipe};
ghost use Rattle.xc_host.specs.Pipes.{pipe_state, IsTakenOf, IsSomeOf, after_take, is_shuttable};
ghost use Rattle.xc_host.specs.Pairs.{IsMessage, IsReceivedOf, after_receipt, has_pair, pair_in, sent_from, side_state};
ghost use Rattle.xc_host.specs.Pairs.{with_new_pair, without_pair};
ghost use Rattle.xc_world.specs.World.{other_side, waiting};
ghost use Rattle.xc_world.specs.Sound.{is_there};

use crate::{Fault, HostErr, HostState, OpenErr, Took};
use xc_data::{Chunk, Name, Num, Object, Prologue};

/// What the calls of transactions go to. Only its own calls change it.
///
/// A call that fails changes nothing. A count of faults rises by one exactly where a call answers a
/// fault; a count of calls of each kind rises by one at each call after the opening. Each host keeps
/// its allocator. For a host that tells, every object that a call names is there.
pub trait Host: Drop {
    ghost model: { HostModel Self };

    /// How many calls have answered a fault. It never falls, and takes no memory.
    fn faults(&self) -> u64
        ensures { result ≡ model.fault_count self.now };

    /// The most bytes that an append may give a file. It never changes, and takes no memory.
    fn most_file_bytes(&self) -> u32
        ensures told { IsTrue model.tells → result ≡ 65536 };

    /// Holds exactly the prologue's objects, whatever it held. It never answers a fault, and a host
    /// that tells takes every script.
    fn open_with(&mut self, prologue: &Prologue) -> Result<(), OpenErr>
        requires { IsPrologue prologue.now }
        ensures ok { IsTrue model.tells → OnOk result (model.contents self.new ≡ opened prologue.now.objects) }
        ensures unchanged { OnErr result (self.new ≡ self.old) }
        ensures told { IsTrue model.tells → model.takes_scripts ≡ true }
        ensures taken { OnOk result (not model.takes_scripts && needs_scripted prologue.now ≡ false) }
        ensures refused { IsErrOf result OpenErr.NotScripted ↔ (not model.takes_scripts && needs_scripted prologue.now ≡ true) }
        ensures count { model.fault_count self.new ≡ model.fault_count self.old }
        ensures fresh { OnOk result ((kind : _) → model.calls self.new kind ≡ 0) }
        ensures plan { OnOk result (model.plan self.new ≡ plan_of prologue.now) };

    /// The number of a name's file.
    fn lookup(&mut self, name: &Name) -> Result<Option<Num>, HostErr>
        ensures value { IsTrue model.tells → IfOk result (λ found. found ≡ map.get (model.contents self.old).names name.now) }
        ensures answered { Answers model HostCallKind.Lookup (record { old = self.old; new = self.new }) result (λ found c. c) };

    /// An empty file of a new number, under a name that is absent.
    fn create(&mut self, name: &Name, num: Num) -> Result<(), HostErr>
        requires absent { IsTrue model.tells → map.get (model.contents self.old).names name.now ≡ None }
        requires new { IsTrue model.tells → has_file (model.contents self.old) num ≡ false }
        ensures answered { Answers model HostCallKind.Create (record { old = self.old; new = self.new }) result
            (λ _ c. created c name.now num) };

    /// A file's length.
    fn len(&mut self, file: Num) -> Result<u32, Fault>
        requires there { IsTrue model.tells → has_file (model.contents self.old) file ≡ true }
        ensures value { IsTrue model.tells → IfOk result (λ n. n ≡ length (file_in (model.contents self.old) file)) }
        ensures answered { Answers model HostCallKind.Len (record { old = self.old; new = self.new }) (without_memory result) (λ n c. c) };

    /// A front of the n bytes from `at`. It is empty exactly where none is there or n is 0.
    fn read_at(&mut self, file: Num, at: u32, n: u32) -> Result<Chunk, HostErr>
        requires there { IsTrue model.tells → has_file (model.contents self.old) file ≡ true }
        ensures bound { IfOk result (λ front. length front ≤ n) }
        ensures value { IsTrue model.tells → IfOk result (λ front. IsFront (file_in (model.contents self.old) file) at n front) }
        ensures answered { Answers model HostCallKind.ReadAt (record { old = self.old; new = self.new }) result (λ front c. c) };

    /// Writes a front of the bytes over those from `at`, and answers its length.
    fn write_at(&mut self, file: Num, at: u32, bytes: &[u8]) -> Result<u32, Fault>
        requires there { IsTrue model.tells → has_file (model.contents self.old) file ≡ true }
        requires inside { IsTrue model.tells → at + length bytes.now ≤ length (file_in (model.contents self.old) file) }
        requires some { 0 < length bytes.now }
        ensures bound { IfOk result (λ n. (0 < n) × (n ≤ length bytes.now)) }
        ensures answered { Answers model HostCallKind.WriteAt (record { old = self.old; new = self.new }) (without_memory result)
            (λ n c. wrote c file at (take n bytes.now)) };

    /// Appends a front of the bytes, and answers its length. Who calls it keeps a file within
    /// `most_file_bytes` bytes.
    fn append(&mut self, file: Num, bytes: &[u8]) -> Result<u32, HostErr>
        requires there { IsTrue model.tells → has_file (model.contents self.old) file ≡ true }
        requires fits { IsTrue model.tells → length (file_in (model.contents self.old) file) + length bytes.now ≤ 65536 }
        requires some { 0 < length bytes.now }
        ensures bound { IfOk result (λ n. (0 < n) × (n ≤ length bytes.now)) }
        ensures answered { Answers model HostCallKind.Append (record { old = self.old; new = self.new }) result
            (λ n c. appended c file (take n bytes.now)) };

    /// The file of a name takes another, which is absent. It takes no memory.
    fn rename(&mut self, from: &Name, to: &Name) -> Result<(), Fault>
        requires there { IsTrue model.tells → is_some (map.get (model.contents self.old).names from.now) ≡ true }
        requires absent { IsTrue model.tells → map.get (model.contents self.old).names to.now ≡ None }
        ensures answered { Answers model HostCallKind.Rename (record { old = self.old; new = self.new }) (without_memory result)
            (λ _ c. renamed c from.now to.now) };

    /// The name goes, and its file stays. It takes no memory.
    fn unlink(&mut self, name: &Name) -> Result<(), Fault>
        requires there { IsTrue model.tells → is_some (map.get (model.contents self.old).names name.now) ≡ true }
        ensures answered { Answers model HostCallKind.Unlink (record { old = self.old; new = self.new }) (without_memory result)
            (λ _ c. unnamed c name.now) };

    /// All that was written to a file is kept for good. It takes no memory.
    fn sync(&mut self, file: Num) -> Result<(), Fault>
        requires there { IsTrue model.tells → has_file (model.contents self.old) file ≡ true }
        ensures answered { Answers model HostCallKind.Sync (record { old = self.old; new = self.new }) (without_memory result) (λ _ c. c) };

    /// An empty pipe of a new number.
    fn new_pipe(&mut self, num: Num) -> Result<(), HostErr>
        requires new { IsTrue model.tells → has_pipe (model.contents self.old) num ≡ false }
        ensures answered { Answers model HostCallKind.NewPipe (record { old = self.old; new = self.new }) result
            (λ _ c. with_new_pipe c num) };

    /// How many bytes a pipe holds, and whether it is shut.
    fn pipe_state(&mut self, pipe: Num) -> Result<HostState, Fault>
        requires there { IsTrue model.tells → has_pipe (model.contents self.old) pipe ≡ true }
        ensures value { IsTrue model.tells → IfOk result (λ state. state ≡ pipe_state (pipe_in (model.contents self.old) pipe)) }
        ensures answered { Answers model HostCallKind.PipeState (record { old = self.old; new = self.new }) (without_memory result)
            (λ state c. c) };

    /// A front of at most n of a pipe's bytes, which leaves it. There is one exactly where a byte is held.
    fn take(&mut self, pipe: Num, n: u32) -> Result<Took, HostErr>
        requires there { IsTrue model.tells → has_pipe (model.contents self.old) pipe ≡ true }
        requires some { 0 < n }
        ensures bound { IfOk result (IsSomeOf n) }
        ensures value { IsTrue model.tells → IfOk result (IsTakenOf (pipe_in (model.contents self.old) pipe)) }
        ensures answered { Answers model HostCallKind.Take (record { old = self.old; new = self.new }) result (after_take pipe) };

    /// Puts a front of the bytes after a pipe's, and answers its length. A pipe holds at most 4,096 bytes.
    fn put(&mut self, pipe: Num, bytes: &[u8]) -> Result<u32, HostErr>
        requires there { IsTrue model.tells → has_pipe (model.contents self.old) pipe ≡ true }
        requires unshut { IsTrue model.tells → (pipe_in (model.contents self.old) pipe).shut ≡ false }
        requires fits { IsTrue model.tells → length (pipe_in (model.contents self.old) pipe).held + length bytes.now ≤ 4096 }
        requires some { 0 < length bytes.now }
        ensures bound { IfOk result (λ n. (0 < n) × (n ≤ length bytes.now)) }
        ensures answered { Answers model HostCallKind.Put (record { old = self.old; new = self.new }) result
            (λ n c. put_into c pipe (take n bytes.now)) };

    /// A pair of a new number, in which no message waits.
    fn new_pair(&mut self, num: Num) -> Result<(), HostErr>
        requires new { IsTrue model.tells → has_pair (model.contents self.old) num ≡ false }
        ensures answered { Answers model HostCallKind.NewPair (record { old = self.old; new = self.new }) result
            (λ _ c. with_new_pair c num) };

    /// How many messages wait for a side of a pair, and whether the pair is shut.
    fn pair_state(&mut self, pair: Num, side: u8) -> Result<HostState, Fault>
        requires there { IsTrue model.tells → has_pair (model.contents self.old) pair ≡ true }
        requires side { side < 2 }
        ensures value { IsTrue model.tells → IfOk result (λ state. state ≡ side_state (pair_in (model.contents self.old) pair) side) }
        ensures answered { Answers model HostCallKind.PairState (record { old = self.old; new = self.new }) (without_memory result)
            (λ state c. c) };

    /// The first message that waits for a side, which leaves it. There is one exactly where one waits; it may have no bytes, and has
    /// at most 1,024.
    fn recv(&mut self, pair: Num, side: u8) -> Result<Took, HostErr>
        requires there { IsTrue model.tells → has_pair (model.contents self.old) pair ≡ true }
        requires side { side < 2 }
        ensures bound { IfOk result IsMessage }
        ensures value { IsTrue model.tells → IfOk result (IsReceivedOf (pair_in (model.contents self.old) pair) side) }
        ensures answered { Answers model HostCallKind.Recv (record { old = self.old; new = self.new }) result (after_receipt pair side) };

    /// Puts a side's message after those that wait for the other side. At most 8 wait there.
    fn send(&mut self, pair: Num, side: u8, bytes: &[u8]) -> Result<(), HostErr>
        requires there { IsTrue model.tells → has_pair (model.contents self.old) pair ≡ true }
        requires side { side < 2 }
        requires unshut { IsTrue model.tells → (pair_in (model.contents self.old) pair).shut ≡ false }
        requires fits { IsTrue model.tells → length (waiting (pair_in (model.contents self.old) pair) (other_side side)) < 8 }
        requires few { length bytes.now ≤ 1024 }
        ensures answered { Answers model HostCallKind.Send (record { old = self.old; new = self.new }) result
            (λ _ c. sent_from c pair side bytes.now) };

    /// Nothing is put into a pipe, or sent to a pair, any more. It takes no memory.
    fn shut(&mut self, object: &Object) -> Result<(), Fault>
        requires shuttable { is_shuttable object.now ≡ true }
        requires there { IsTrue model.tells → is_there (world_of (model.contents self.old)) object.now ≡ true }
        ensures answered { Answers model HostCallKind.Shut (record { old = self.old; new = self.new }) (without_memory result)
            (λ _ c. shut_in c object.now) };

    /// Undoes an overwrite: as `write_at`. It takes no memory.
    fn restore(&mut self, file: Num, at: u32, bytes: &[u8]) -> Result<u32, Fault>
        requires there { IsTrue model.tells → has_file (model.contents self.old) file ≡ true }
        requires inside { IsTrue model.tells → at + length bytes.now ≤ length (file_in (model.contents self.old) file) }
        requires some { 0 < length bytes.now }
        ensures bound { IfOk result (λ n. (0 < n) × (n ≤ length bytes.now)) }
        ensures answered { Answers model HostCallKind.Restore (record { old = self.old; new = self.new }) (without_memory result)
            (λ n c. wrote c file at (take n bytes.now)) };

    /// Undoes an append: the file has its first `len` bytes alone. It takes no memory.
    fn cut(&mut self, file: Num, len: u32) -> Result<(), Fault>
        requires there { IsTrue model.tells → has_file (model.contents self.old) file ≡ true }
        requires within { IsTrue model.tells → len ≤ length (file_in (model.contents self.old) file) }
        ensures answered { Answers model HostCallKind.Cut (record { old = self.old; new = self.new }) (without_memory result)
            (λ _ c. shortened c file len) };

    /// Undoes a create: the name and its file go. It takes no memory.
    fn uncreate(&mut self, name: &Name, num: Num) -> Result<(), Fault>
        requires named { IsTrue model.tells → map.get (model.contents self.old).names name.now ≡ Some num }
        requires there { IsTrue model.tells → has_file (model.contents self.old) num ≡ true }
        ensures answered { Answers model HostCallKind.Uncreate (record { old = self.old; new = self.new }) (without_memory result)
            (λ _ c. uncreated c name.now num) };

    /// Undoes a rename: the name `to` becomes `from` again. It takes no memory.
    fn name_back(&mut self, from: &Name, to: &Name) -> Result<(), Fault>
        requires there { IsTrue model.tells → is_some (map.get (model.contents self.old).names to.now) ≡ true }
        requires absent { IsTrue model.tells → map.get (model.contents self.old).names from.now ≡ None }
        ensures answered { Answers model HostCallKind.NameBack (record { old = self.old; new = self.new }) (without_memory result)
            (λ _ c. renamed c to.now from.now) };

    /// Undoes a new pipe: the pipe goes. It takes no memory.
    fn drop_pipe(&mut self, num: Num) -> Result<(), Fault>
        requires there { IsTrue model.tells → has_pipe (model.contents self.old) num ≡ true }
        ensures answered { Answers model HostCallKind.DropPipe (record { old = self.old; new = self.new }) (without_memory result)
            (λ _ c. without_pipe c num) };

    /// Undoes a new pair: the pair goes. It takes no memory.
    fn drop_pair(&mut self, num: Num) -> Result<(), Fault>
        requires there { IsTrue model.tells → has_pair (model.contents self.old) num ≡ true }
        ensures answered { Answers model HostCallKind.DropPair (record { old = self.old; new = self.new }) (without_memory result)
            (λ _ c. without_pair c num) };
}
