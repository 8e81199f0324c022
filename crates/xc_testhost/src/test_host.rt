ghost use Rattle.std.specs.Prelude.{◌≡◌, ◌<◌, ◌≤◌, ◌^◌, [], ◌∷◌, length, IfOk};
ghost use Rattle.xc_data.specs.Counts.{CountsFault};
ghost use Rattle.xc_host.specs.Cause.{IsCalled};
ghost use Rattle.xc_host.specs.Counting.{calls_of};

mod host;

use crate::pairs::Pairs;
use crate::pipes::Pipes;
use crate::tails::{Tails, put};
use std::alloc::Global;
use xc_data::{HostCallKind, Name, NoMemory, Num};
use xc_host::KindCounts;

/// A call of the host, with the place and the length that it asks for, each 0 where it asks for none.
#[derive(Clone, Copy, Debug, PartialEq)]
pub struct AskedCall {
    pub kind: HostCallKind,
    pub at: u32,
    pub len: usize,
}

impl AskedCall {
    /// A call that asks for a place and a length.
    pub fn new(kind: HostCallKind, at: u32, len: usize) -> AskedCall
        ensures { result ≡ record { kind = kind; at = at; len = len } }
    {
        AskedCall { kind, at, len }
    }

    /// A call that asks for neither.
    pub fn plain(kind: HostCallKind) -> AskedCall
        ensures { result ≡ record { kind = kind; at = 0; len = 0 } }
    {
        AskedCall::new(kind, 0, 0)
    }
}

/// A host that tells nothing and takes no scripts. The files that it opens with, those of transaction
/// 0, stand one after another in the same bytes; the first is `a`. What is appended stands apart, and
/// no read or write goes over into it.
#[derive(Drop)]
pub struct TestHost {
    alloc: Global,
    pub bytes: Vec<u8>,
    /// What it says of the length of each file that it opens with, without what is appended.
    pub len: u32,
    /// The most bytes that one call reads, writes, takes or puts.
    pub grain: u32,
    /// The calls that fail, counted from 1.
    pub fails: [usize; 3],
    /// Whether each look for a name runs out of memory.
    pub starves: bool,
    /// Each call that there was.
    pub log: Vec<AskedCall>,
    /// The names of files, in no order.
    pub names: Vec<(Name, Num)>,
    tails: Tails,
    pipes: Pipes,
    pairs: Pairs,
    calls: KindCounts,
    faults: u64,
}

// The names at the opening: one.
fn opening_names(alloc: Global) -> Result<Vec<(Name, Num)>, NoMemory> {
    let mut names = Vec::new(alloc);
    if let Some(name) = Name::new(b"a") {
        names.push((name, Num { tx: 0, k: 0 }))?;
    }
    Ok(names)
}

// Up to n bytes from a place on.
fn part(bytes: &[u8], at: usize, n: usize) -> &[u8]
    ensures { length result.now ≤ n }
{
    let rest = &bytes[at.min(bytes.len())..];
    &rest[..n.min(rest.len())]
}

impl TestHost {
    /// A host whose one file has these bytes, and which says that its length is `len`.
    pub fn new(alloc: Global, bytes: &[u8], len: u32) -> Result<TestHost, NoMemory>
        ensures { IfOk result (λ host. (host.bytes.items ≡ bytes.now) × (host.len ≡ len)) }
    {
        let mut copy = Vec::new(alloc);
        copy.extend_from_slice(bytes)?;
        Ok(TestHost {
            alloc,
            bytes: copy,
            len,
            grain: u32::MAX,
            fails: [0; 3],
            starves: false,
            log: Vec::new(alloc),
            names: opening_names(alloc)?,
            tails: Tails::new(alloc),
            pipes: Pipes::new(alloc),
            pairs: Pairs::new(alloc),
            calls: KindCounts::none(),
            faults: 0,
        })
    }

    // How many bytes of a file stand in the same bytes.
    fn opened(&self, file: Num) -> u32 {
        if file.tx == 0 { self.len } else { 0 }
    }

    // Where a byte of a file that it opens with stands.
    fn place(&self, file: Num, at: u32) -> usize {
        self.len as usize * file.k as usize + at as usize
    }

    /// The file of a name. It is no call of the host.
    pub fn named(&self, name: &Name) -> Option<Num> {
        for entry in &self.names {
            if entry.0 == *name {
                return Some(entry.1);
            }
        }
        None
    }

    /// What was appended to a file. It is no call of the host.
    pub fn tail(&self, file: Num) -> &[u8] {
        self.tails.of(file)
    }

    // Gives the file of a name another name.
    fn change_name(&mut self, from: &Name, to: &Name)
        ensures { self.new ≡ record self.old { names = self.new.names } }
    {
        for entry in self.names.iter_mut() {
            if entry.0 == *from {
                entry.0 = *to;
            }
        }
    }

    /// Writes over a file's bytes. It is no call of the host.
    pub fn overwrite(&mut self, file: Num, at: u32, bytes: &[u8])
        ensures { self.new ≡ record self.old { bytes = self.new.bytes } }
    {
        let place = self.place(file, at);
        put(&mut self.bytes, place, bytes);
    }

    // Writes down a call, and says whether it fails.
    fn fails(&mut self, call: AskedCall) -> bool
        ensures called { IsCalled (call.kind ∷ []) (calls_of self.old.calls) (calls_of self.new.calls) }
        ensures cause { CountsFault result self.old.faults self.new.faults }
    {
        self.calls.count(call.kind);
        let written = self.log.push(call);
        if written.is_ok() && !self.fails.contains(&self.log.len()) {
            return false;
        }
        self.faults = self.faults.saturating_add(1);
        true
    }

    // Writes as many of the bytes as one call does.
    fn write(&mut self, file: Num, at: u32, bytes: &[u8]) -> u32
        requires { 0 < length bytes.now }
        ensures calls { self.new.calls ≡ self.old.calls }
        ensures faults { self.new.faults ≡ self.old.faults }
        ensures bound { (0 < result) × (result ≤ length bytes.now) }
    {
        let opened = self.opened(file);
        let mut n = self.grained(bytes);
        if at < opened {
            n = n.min((opened - at) as usize);
            self.overwrite(file, at, &bytes[..n]);
        } else {
            self.tails.put(file, (at - opened) as usize, &bytes[..n]);
        }
        n as u32
    }

    // How many of the bytes one call does.
    fn grained(&self, bytes: &[u8]) -> usize
        requires { 0 < length bytes.now }
        ensures bound { (0 < result) × (result ≤ length bytes.now) }
        ensures fits { result < 2 ^ 32 }
    {
        bytes.len().min(self.grain as usize).max(1)
    }

    // Up to n bytes of a file from a place on.
    fn front(&self, file: Num, at: u32, n: usize) -> &[u8]
        ensures { length result.now ≤ n }
    {
        let opened = self.opened(file);
        if at < opened {
            let n = n.min((opened - at) as usize);
            part(&self.bytes, self.place(file, at), n)
        } else {
            part(self.tails.of(file), (at - opened) as usize, n)
        }
    }
}
