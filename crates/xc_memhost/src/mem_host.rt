ghost use Rattle.std.specs.Prelude.{◌≡◌, ◌≤◌, ◌<◌, ◌+◌, true, [], ◌∷◌, length, IfOk, IfSome, OnOk, OnErr, is_some};
ghost use Rattle.std.specs.FinMap as map;
ghost use Rattle.xc_data.specs.Counts.{CountsFault};
ghost use Rattle.xc_data.specs.declared.script.HostCallKind.TheVariants as PlainKind;
ghost use Rattle.xc_host.specs.Cause.{IsCalled};
ghost use Rattle.xc_host.specs.Contents.{file_in, has_file};
ghost use Rattle.xc_host.specs.Counting.{calls_of};
ghost use Rattle.xc_memhost.specs.State.{empty_state};
ghost use Rattle.xc_memhost.specs.Faults.{is_listed, call_begun};
ghost use Rattle.xc_host.specs.Pipes.{pipe_in, has_pipe, pipe_state, after_take, IsTakenOf, IsSomeOf};
ghost use Rattle.xc_memhost.specs.Machine.{written_count, written, lengthened, pipe_take, filled};

mod host;

use crate::faults::{Faults, grained};
use crate::objects::HostObjects;
use std::alloc::Global;
use std::marker::Model;
use xc_data::{HostCallKind, Name, NoMemory, Num};
use xc_host::{HostState, KindCounts, Took};

/// A host in memory. It tells its contents, and exactly the calls that its prologue lists fail.
#[derive(Drop)]
pub struct MemHost {
    alloc: Global,
    objects: HostObjects,
    lines: Faults,
    grain: Option<u32>,
    calls: KindCounts,
    faults: u64,
}

impl Model for MemHost {
    ghost use Rattle.xc_data.specs.Limits.{IsGrain};
    ghost use Rattle.xc_memhost.specs.State.{MemState, coded_state};

    ghost Value = { MemState };

    ghost coded = { coded_state };

    ghost view = { λ a. record
        { contents = a.objects; lines = a.lines; grain = a.grain; calls = a.calls; fault_count = a.faults } };

    ghost invariant = { λ a. IsGrain a.grain };
}

impl MemHost {
    /// It holds nothing, and no call fails. It takes no memory.
    pub fn new(alloc: Global) -> MemHost
        ensures { result ≡ empty_state }
    {
        MemHost {
            alloc,
            objects: HostObjects::new(alloc),
            lines: Faults::none(alloc),
            grain: None,
            calls: KindCounts::none(),
            faults: 0,
        }
    }

    /// How many calls there were since it was opened, the failed ones among them. It takes no memory.
    pub fn calls(&self) -> u64
        ensures { result ≡ calls_of self.now.calls PlainKind.Any }
    {
        self.calls.of(HostCallKind::Any)
    }

    /// A file's bytes. Looking at them is no call of the host.
    pub fn bytes_of(&self, file: Num) -> Option<&[u8]>
        ensures there { is_some result ≡ has_file self.now.contents file }
        ensures value { IfSome result (λ bytes. bytes.now ≡ file_in self.now.contents file) }
    {
        self.objects.bytes_of(file)
    }

    /// The file of a name. Looking at it is no call of the host.
    pub fn named(&self, name: Name) -> Option<Num>
        ensures { result ≡ map.get self.now.contents.names name }
    {
        self.objects.find(name)
    }

    /// How many bytes a pipe holds and whether it is shut, if there is one. Looking at it is no call of the host.
    pub fn pipe_of(&self, pipe: Num) -> Option<HostState>
        ensures there { is_some result ≡ has_pipe self.now.contents pipe }
        ensures value { IfSome result (λ state. state ≡ pipe_state (pipe_in self.now.contents pipe)) }
    {
        self.objects.pipe_of(pipe)
    }

    // Counts a call, and says whether it fails.
    #[inline(always)]
    fn fails(&mut self, kind: HostCallKind) -> bool
        ensures value { result ≡ is_listed kind self.old }
        ensures state { self.new ≡ call_begun kind self.old }
        ensures called { IsCalled (kind ∷ []) (calls_of self.old.calls) (calls_of self.new.calls) }
        ensures cause { CountsFault result self.old.fault_count self.new.fault_count }
    {
        let number = self.calls.next(kind);
        let all = self.calls.next(HostCallKind::Any);
        let fails = self.lines.lists(kind, number, all);
        self.calls.count(kind);
        if fails {
            self.faults = self.faults.saturating_add(1);
        }
        fails
    }

    // Appends as many of the bytes as the grain allows, and answers their number.
    fn lengthen(&mut self, file: Num, bytes: &[u8]) -> Result<u32, NoMemory>
        requires there { has_file self.old.contents file ≡ true }
        requires fits { length (file_in self.old.contents file) + length bytes.now ≤ 65536 }
        requires some { 0 < length bytes.now }
        ensures bound { IfOk result (λ n. (0 < n) × (n ≤ length bytes.now)) }
        ensures size { IfOk result (λ n. n ≡ written_count self.old bytes.now) }
        ensures state { OnOk result (self.new ≡ record self.old { contents = lengthened self.old file bytes.now }) }
        ensures failed { OnErr result (self.new ≡ self.old) }
    {
        let count = grained(self.grain, bytes.len() as u32);
        self.objects.append(file, &bytes[..count as usize])?;
        Ok(count)
    }

    // Writes as many of the bytes as the grain allows, and answers their number.
    fn write(&mut self, file: Num, at: u32, bytes: &[u8]) -> u32
        requires there { has_file self.old.contents file ≡ true }
        requires inside { at + length bytes.now ≤ length (file_in self.old.contents file) }
        requires some { 0 < length bytes.now }
        ensures bound { (0 < result) × (result ≤ length bytes.now) }
        ensures size { result ≡ written_count self.old bytes.now }
        ensures state { self.new ≡ record self.old { contents = written self.old file at bytes.now } }
    {
        // The bytes end inside the file, so their number fits.
        let len = self.objects.len(file);
        let count = grained(self.grain, bytes.len().min(len as usize) as u32);
        self.objects.overwrite(file, at, &bytes[..count as usize]);
        count
    }
    // Takes as many of n bytes as are there and the grain allows.
    fn take_front(&mut self, pipe: Num, n: u32) -> Result<Took, NoMemory>
        requires there { has_pipe self.old.contents pipe ≡ true }
        requires some { 0 < n }
        ensures bound { IfOk result (IsSomeOf n) }
        ensures value { IfOk result (IsTakenOf (pipe_in self.old.contents pipe)) }
        ensures front { IfOk result (λ took. took ≡ pipe_take self.old pipe n) }
        ensures state { IfOk result (λ took. self.new ≡ record self.old { contents = after_take pipe took self.old.contents }) }
        ensures failed { OnErr result (self.new ≡ self.old) }
    {
        let state = self.objects.pipe_state(pipe);
        if state.held == 0 {
            return Ok(if state.shut { Took::End } else { Took::Empty });
        }
        let count = grained(self.grain, n);
        Ok(Took::Bytes(self.objects.take(pipe, count)?))
    }

    // Puts as many of the bytes as the grain allows, and answers their number.
    fn fill(&mut self, pipe: Num, bytes: &[u8]) -> Result<u32, NoMemory>
        requires there { has_pipe self.old.contents pipe ≡ true }
        requires fits { length (pipe_in self.old.contents pipe).held + length bytes.now ≤ 4096 }
        requires some { 0 < length bytes.now }
        ensures bound { IfOk result (λ n. (0 < n) × (n ≤ length bytes.now)) }
        ensures size { IfOk result (λ n. n ≡ written_count self.old bytes.now) }
        ensures state { OnOk result (self.new ≡ record self.old { contents = filled self.old pipe bytes.now }) }
        ensures failed { OnErr result (self.new ≡ self.old) }
    {
        let count = grained(self.grain, bytes.len() as u32);
        self.objects.put(pipe, &bytes[..count as usize])?;
        Ok(count)
    }
}
