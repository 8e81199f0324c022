ghost use Rattle.std.specs.Prelude.{◌≡◌, ◌≤◌};

use super::{FILE, host_of};
use HostCallKind::{Append, Len, ReadAt, WriteAt};
use std::alloc::Global;
use std::test::Fail;
use xc_compensate::Stack;
use xc_data::{Chunk, HostCallKind, NoMemory, Place, Private, Reply};
use xc_file::{x_read, x_write_ovr, x_write_seq};
use xc_testhost::{AskedCall, TestHost};

// The file is open at handle 0, and `stored` bytes are stored.
fn opened(stored: u32) -> Private
    requires { stored ≤ 16384 }
    ensures { result.stored ≡ stored }
{
    let mut me = Private::new();
    me.set_place(0, Place::File { num: FILE, at: 0 });
    me.stored = stored;
    me
}

// A host that moves two bytes at once.
fn grained(alloc: Global) -> Result<TestHost, NoMemory> {
    let mut host = host_of(alloc, b"hello")?;
    host.grain = 2;
    Ok(host)
}

fn is_got(reply: &Reply, wanted: &[u8]) -> bool {
    match reply {
        Reply::Got(bytes) => bytes.as_slice() == wanted,
        _ => false,
    }
}

fn reads_by_two(alloc: Global, mut host: TestHost) -> Result<bool, NoMemory> {
    let mut me = opened(7);
    let reply = x_read(alloc, &mut host, &mut me, 0, 9)?;
    let calls = [
        AskedCall::new(ReadAt, 0, 9),
        AskedCall::new(ReadAt, 2, 7),
        AskedCall::new(ReadAt, 4, 5),
        AskedCall::new(ReadAt, 5, 4),
    ];
    Ok(is_got(&reply, b"hello") && me.stored == 12 && host.log.as_slice() == calls.as_slice())
}

#[test]
fn a_read_asks_for_the_rest(rt: HostRuntime) -> Result<(), Fail> {
    assert!(rt; reads_by_two(rt.alloc(), grained(rt.alloc())?)?);
    Ok(())
}

// An overwrite from the start of the file on, and what it replies.
fn overwrite(alloc: Global, host: &mut TestHost, bytes: &Chunk) -> Result<Reply, NoMemory> {
    let mut me = opened(7);
    let mut undo = Stack::new(alloc);
    x_write_ovr(alloc, host, &mut me, &mut undo, 0, bytes)
}

fn overwrites_by_two(alloc: Global, mut host: TestHost, bytes: &Chunk) -> Result<bool, NoMemory> {
    let reply = overwrite(alloc, &mut host, bytes)?;
    let calls = [
        AskedCall::plain(Len),
        AskedCall::new(ReadAt, 0, 5),
        AskedCall::new(ReadAt, 2, 3),
        AskedCall::new(ReadAt, 4, 1),
        AskedCall::new(WriteAt, 0, 5),
        AskedCall::new(WriteAt, 2, 3),
        AskedCall::new(WriteAt, 4, 1),
    ];
    Ok(
        reply == Reply::Done
            && host.bytes.as_slice() == b"HELLO".as_slice()
            && host.log.as_slice() == calls.as_slice(),
    )
}

#[test]
fn an_overwrite_writes_the_rest(rt: HostRuntime) -> Result<(), Fail> {
    let bytes = Chunk::new(rt.alloc(), b"HELLO")?;
    assert!(rt; overwrites_by_two(rt.alloc(), grained(rt.alloc())?, &bytes)?);
    Ok(())
}

// A host that says too much of the file's length.
fn is_past_the_end(alloc: Global, mut host: TestHost, bytes: &Chunk) -> Result<bool, NoMemory> {
    host.len = 9;
    let reply = overwrite(alloc, &mut host, bytes)?;
    let calls = [
        AskedCall::plain(Len),
        AskedCall::new(ReadAt, 0, 9),
        AskedCall::new(ReadAt, 5, 4),
    ];
    Ok(
        reply == Reply::PastEnd
            && host.bytes.as_slice() == b"hello".as_slice()
            && host.log.as_slice() == calls.as_slice(),
    )
}

#[test]
fn old_bytes_that_are_not_there(rt: HostRuntime) -> Result<(), Fail> {
    let bytes = Chunk::new(rt.alloc(), b"HELLOHELL")?;
    assert!(rt; is_past_the_end(rt.alloc(), host_of(rt.alloc(), b"hello")?, &bytes)?);
    Ok(())
}

fn appends_by_two(alloc: Global, mut host: TestHost, bytes: &Chunk) -> Result<bool, NoMemory> {
    let mut me = opened(7);
    let mut undo = Stack::new(alloc);
    let reply = x_write_seq(&mut host, &mut me, &mut undo, 0, bytes)?;
    let calls = [
        AskedCall::plain(Len),
        AskedCall::new(Append, 0, 5),
        AskedCall::new(Append, 0, 3),
        AskedCall::new(Append, 0, 1),
    ];
    Ok(
        reply == Reply::Done
            && host.tail(FILE) == b"HELLO".as_slice()
            && host.log.as_slice() == calls.as_slice(),
    )
}

#[test]
fn an_append_appends_the_rest(rt: HostRuntime) -> Result<(), Fail> {
    let bytes = Chunk::new(rt.alloc(), b"HELLO")?;
    assert!(rt; appends_by_two(rt.alloc(), grained(rt.alloc())?, &bytes)?);
    Ok(())
}
