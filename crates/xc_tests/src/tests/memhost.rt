ghost use Rattle.std.specs.Prelude.{IsTrue, All};
ghost use Rattle.xc_data.specs.Limits.{IsPrologue, IsOpenedFit};
ghost use Rattle.xc_memhost.specs.Machine.{MayCreate, MayAppend};

use super::{FILE, name};
use std::alloc::Global;
use std::test::Fail;
use xc_data::{Chunk, Items, Name, NoMemory, Num, Opened, OpenedList, Prologue};
use xc_host::Host;
use xc_memhost::{HostAnswer, HostCall, MemHost, run_calls};

// A file that a call makes.
const MADE: Num = Num { tx: 3, k: 0 };

// The most bytes of a file.
const MAX_FILE: usize = 65536;

// The most bytes of a pipe.
const MAX_PIPE: usize = 4096;

fn file(alloc: Global) -> Result<Opened, NoMemory> {
    Ok(Opened::File {
        name: name(b"a")?,
        bytes: Chunk::new(alloc, b"abcdef")?,
    })
}

fn pipe(alloc: Global) -> Result<Opened, NoMemory> {
    Ok(Opened::Pipe {
        bytes: Chunk::new(alloc, b"xyz")?,
    })
}

fn objects(alloc: Global) -> Result<OpenedList, NoMemory> {
    let mut objects = Items::new(alloc);
    objects.push(file(alloc)?)?;
    objects.push(pipe(alloc)?)?;
    objects.push(Opened::Pair)?;
    Ok(objects)
}

fn is_fit(opened: &Opened) -> bool
    ensures { IsTrue result → IsOpenedFit opened.now }
{
    match opened {
        Opened::File { bytes, .. } => bytes.len() <= MAX_FILE,
        Opened::Pipe { bytes } => bytes.len() <= MAX_PIPE,
        Opened::Pair => true,
    }
}

fn are_fit(objects: &[Opened]) -> bool
    ensures { IsTrue result → All IsOpenedFit objects.now }
{
    for opened in objects {
        if !is_fit(opened) {
            return false;
        }
    }
    true
}

// A host may be opened with it: these few objects can't be too many pipes or pairs.
fn is_prologue(prologue: &Prologue) -> bool
    ensures { IsTrue result → IsPrologue prologue.now }
{
    if prologue.objects.len() > 32 || prologue.grain.is_some() {
        return false;
    }
    are_fit(prologue.objects.as_slice())
}

// A host with the file `a`, a pipe and a pair; or none, where it isn't opened so.
fn opened(alloc: Global) -> Result<Option<MemHost>, NoMemory> {
    let prologue = Prologue {
        objects: objects(alloc)?,
        faults: Items::new(alloc),
        grain: None,
    };
    let mut host = MemHost::new(alloc);
    if !is_prologue(&prologue) || host.open_with(&prologue).is_err() {
        return Ok(None);
    }
    Ok(Some(host))
}

fn may_create(host: &MemHost, name: Name, num: Num) -> bool
    ensures { IsTrue result → MayCreate host.now.contents name num }
{
    host.named(name).is_none() && host.bytes_of(num).is_none()
}

fn may_append(host: &MemHost, file: Num, bytes: &[u8]) -> bool
    ensures { IsTrue result → MayAppend host.now.contents file bytes.now }
{
    match host.bytes_of(file) {
        Some(held) => !bytes.is_empty() && held.len() + bytes.len() <= MAX_FILE,
        None => false,
    }
}

// A file is made, appended to and read.
fn makes_a_file(host: &mut MemHost, name: Name) -> bool {
    if !may_create(host, name, MADE) || host.create(&name, MADE).is_err() {
        return false;
    }
    if !may_append(host, MADE, b"hello") || host.append(MADE, b"hello") != Ok(5) {
        return false;
    }
    reads(host, MADE, b"hello")
}

fn reads(host: &mut MemHost, file: Num, wanted: &[u8]) -> bool {
    if host.bytes_of(file).is_none() {
        return false;
    }
    match host.read_at(file, 0, 9) {
        Ok(bytes) => bytes.as_slice() == wanted,
        Err(_) => false,
    }
}

#[test]
fn an_opened_host_has_its_file(rt: HostRuntime) -> Result<(), Fail> {
    let host = opened(rt.alloc())?;
    assert!(rt; host.is_some_and(|mut host| reads(&mut host, FILE, b"abcdef")));
    Ok(())
}

#[test]
fn calls_that_take_memory_are_done(rt: HostRuntime) -> Result<(), Fail> {
    let name = name(b"b")?;
    assert!(rt; makes_a_file(&mut MemHost::new(rt.alloc()), name));
    Ok(())
}

// A look at a host with no file.
fn finds_none(alloc: Global, name: Name) -> Result<bool, NoMemory> {
    let mut host = MemHost::new(alloc);
    let answers = run_calls(alloc, &mut host, &[HostCall::Lookup(name)])?;
    Ok(answers.get(0) == Some(&HostAnswer::Found(None)))
}

#[test]
fn calls_are_made_in_a_list(rt: HostRuntime) -> Result<(), Fail> {
    assert!(rt; finds_none(rt.alloc(), name(b"a")?)?);
    Ok(())
}
