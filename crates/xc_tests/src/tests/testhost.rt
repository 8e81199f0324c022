use super::{FILE, are_of, host_of, name};
use HostCallKind::{Lookup, ReadAt, Restore, WriteAt};
use std::test::Fail;
use xc_data::{HostCallKind, Name, Num};
use xc_host::{Host, HostErr};
use xc_testhost::{AskedCall, TestHost};

fn fails_twice(mut host: TestHost) -> bool {
    host.fails = [1, 3, 0];
    let calls = [
        AskedCall::new(ReadAt, 0, 1),
        AskedCall::new(WriteAt, 3, 2),
        AskedCall::new(Restore, 3, 2),
    ];
    host.read_at(FILE, 0, 1).is_err()
        && host.write_at(FILE, 3, b"LO") == Ok(2)
        && host.restore(FILE, 3, b"lo").is_err()
        && host.faults() == 2
        && host.bytes.as_slice() == b"helLO".as_slice()
        && host.log.as_slice() == calls.as_slice()
}

#[test]
fn the_listed_calls_fail(rt: HostRuntime) -> Result<(), Fail> {
    assert!(rt; fails_twice(host_of(rt.alloc(), b"hello")?));
    Ok(())
}

// The files of the opening stand one after another in the same bytes.
fn restores_a_grain(mut host: TestHost) -> bool {
    host.len = 5;
    host.grain = 2;
    let second = Num { tx: 0, k: 1 };
    host.restore(second, 1, b"ell") == Ok(2) && host.bytes.as_slice() == b"helloHelLO".as_slice()
}

#[test]
fn a_call_does_a_grain(rt: HostRuntime) -> Result<(), Fail> {
    assert!(rt; restores_a_grain(host_of(rt.alloc(), b"helloHELLO")?));
    Ok(())
}

fn grows_and_is_cut(mut host: TestHost) -> bool {
    host.append(FILE, b"wide") == Ok(4)
        && host.write_at(FILE, 4, b"OW") == Ok(1)
        && host.restore(FILE, 5, b"W") == Ok(1)
        && host.len(FILE) == Ok(9)
        && host.cut(FILE, 6).is_ok()
        && host.bytes.as_slice() == b"hellO".as_slice()
        && host.tail(FILE) == b"W".as_slice()
}

#[test]
fn files_grow_and_are_cut(rt: HostRuntime) -> Result<(), Fail> {
    assert!(rt; grows_and_is_cut(host_of(rt.alloc(), b"hello")?));
    Ok(())
}

fn wants_memory(mut host: TestHost, name: &Name) -> bool {
    host.starves = true;
    host.lookup(name) == Err(HostErr::NoMemory)
        && host.faults() == 0
        && are_of(&host.log, &[Lookup])
}

#[test]
fn a_starved_look_wants_memory(rt: HostRuntime) -> Result<(), Fail> {
    let name = name(b"a")?;
    assert!(rt; wants_memory(host_of(rt.alloc(), b"hello")?, &name));
    Ok(())
}
