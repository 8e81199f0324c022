mod buffers;
mod compensate;
mod data;
mod deferred;
mod file;
mod memhost;
mod testhost;

use std::alloc::Global;
use xc_data::{HostCallKind, Name, NoMemory, Num, SharedName};
use xc_testhost::{AskedCall, TestHost};

// The file `a` of a host for tests.
const FILE: Num = Num { tx: 0, k: 0 };

fn name(bytes: &[u8]) -> Result<Name, NoMemory> {
    Name::new(bytes).ok_or(NoMemory)
}

// A name in a place of its own.
fn shared_name(alloc: Global, bytes: &[u8]) -> Result<SharedName, NoMemory> {
    SharedName::new(alloc, name(bytes)?)
}

// A host with a file of these bytes, at most 65,536.
fn host_of(alloc: Global, bytes: &[u8]) -> Result<TestHost, NoMemory> {
    TestHost::new(alloc, bytes, bytes.len().min(65536) as u32)
}

// The calls that there were are of these kinds, one by one.
fn are_of(log: &[AskedCall], kinds: &[HostCallKind]) -> bool {
    log.len() == kinds.len()
        && log
            .iter()
            .zip(kinds)
            .all(|(asked, kind)| asked.kind == *kind)
}
