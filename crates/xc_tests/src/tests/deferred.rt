ghost use Rattle.std.specs.Prelude.{◌≡◌, [], IfOk};

use super::{FILE, are_of, host_of, shared_name};
use HostCallKind::{Lookup, Sync, Unlink};
use std::alloc::Global;
use std::test::Fail;
use xc_buffers::Kept;
use xc_data::{HostCallKind, LateCall, LateEnd, NoMemory};
use xc_deferred::Late;
use xc_testhost::TestHost;

// An unlink of the name `a` and a sync of its file.
fn late_calls(alloc: Global) -> Result<Late, NoMemory>
    ensures { IfOk result (λ late. late.ends ≡ []) }
{
    let mut late = Late::new(alloc);
    late.push(LateCall::Unlink(shared_name(alloc, b"a")?))?;
    late.push(LateCall::Sync(FILE))?;
    Ok(late)
}

// Does all calls: their ends are these, by these calls of the host.
fn ends_so(
    mut host: TestHost,
    mut late: Late,
    kept: &Kept,
    ends: &[LateEnd],
    calls: &[HostCallKind],
) -> bool {
    for _ in 0..9 {
        if late.has_left() && late.next_thread().is_none() {
            late.do_one(&mut host, kept);
        }
    }
    late.into_ends().as_slice() == ends && are_of(&host.log, calls)
}

#[test]
fn calls_end_in_their_order(rt: HostRuntime) -> Result<(), Fail> {
    let late = late_calls(rt.alloc())?;
    let kept = Kept::new(rt.alloc());
    let host = host_of(rt.alloc(), b"hello")?;
    let ends = [LateEnd::Done, LateEnd::Done];
    assert!(rt; ends_so(host, late, &kept, &ends, &[Lookup, Unlink, Sync]));
    Ok(())
}

// No host that follows a script runs out of memory for a look.
#[test]
fn an_unlink_wants_memory(rt: HostRuntime) -> Result<(), Fail> {
    let late = late_calls(rt.alloc())?;
    let kept = Kept::new(rt.alloc());
    let mut host = host_of(rt.alloc(), b"hello")?;
    host.starves = true;
    let ends = [LateEnd::NoMemory(0), LateEnd::Done];
    assert!(rt; ends_so(host, late, &kept, &ends, &[Lookup, Sync]));
    Ok(())
}

#[test]
fn the_first_calls_are_kept(rt: HostRuntime) -> Result<(), Fail> {
    let mut late = late_calls(rt.alloc())?;
    assert_eq!(rt; late.count(), 2);
    late.cut(1);
    assert_eq!(rt; late.count(), 1);
    let kept = Kept::new(rt.alloc());
    let host = host_of(rt.alloc(), b"hello")?;
    assert!(rt; ends_so(host, late, &kept, &[LateEnd::Done], &[Lookup, Unlink]));
    Ok(())
}
