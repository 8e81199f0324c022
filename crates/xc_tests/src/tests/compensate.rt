ghost use Rattle.std.specs.Prelude.{◌≡◌, [], length, IfOk};
ghost use Rattle.xc_compensate.specs.Records.{IsRecord};

use super::{FILE, host_of, name, shared_name};
use HostCallKind::{Append, Create, Cut, DropPipe, NameBack, NewPipe, Rename, Restore, Uncreate};
use std::alloc::Global;
use std::test::Fail;
use xc_compensate::{Stack, UndoTurn};
use xc_data::{Chunk, HostCallKind, Name, NoMemory, Num, Undo};
use xc_host::Host;
use xc_testhost::{AskedCall, TestHost};

const UNDONE: UndoTurn = UndoTurn::Undone { faults: 0 };

// A file that was made.
const MADE: Num = Num { tx: 1, k: 0 };

// The record of an overwrite of "cdefg" at place 2.
fn overwrite(alloc: Global) -> Result<Undo, NoMemory>
    ensures { IfOk result IsRecord }
{
    let before = Chunk::new(alloc, b"cdefg")?;
    let after = Chunk::new(alloc, b"CDEFG")?;
    Ok(Undo::Overwrite {
        file: FILE,
        at: 2,
        before,
        after,
        n: 5,
    })
}

fn with_overwrite(alloc: Global) -> Result<Stack, NoMemory> {
    let mut stack = Stack::new(alloc);
    stack.push(overwrite(alloc)?)?;
    Ok(stack)
}

// Bytes are restored from the first one that isn't restored yet, and faults with restored bytes between
// them count together.
fn fails_in_one_turn(mut host: TestHost, mut stack: Stack) -> bool {
    host.grain = 2;
    host.fails = [1, 3, 5];
    let turn = stack.undo_next(&mut host, 3);
    let calls = [
        AskedCall::new(Restore, 2, 5),
        AskedCall::new(Restore, 2, 5),
        AskedCall::new(Restore, 4, 3),
        AskedCall::new(Restore, 4, 3),
        AskedCall::new(Restore, 6, 1),
    ];
    turn == UndoTurn::Failed { done: 4, faults: 3 }
        && host.bytes.as_slice() == b"abcdefGh".as_slice()
        && host.log.as_slice() == calls.as_slice()
}

#[test]
fn faults_of_a_turn_count_together(rt: HostRuntime) -> Result<(), Fail> {
    let stack = with_overwrite(rt.alloc())?;
    assert!(rt; fails_in_one_turn(host_of(rt.alloc(), b"abCDEFGh")?, stack));
    Ok(())
}

fn create(alloc: Global) -> Result<Undo, NoMemory>
    ensures { IfOk result IsRecord }
{
    Ok(Undo::Create {
        name: shared_name(alloc, b"made")?,
        num: MADE,
    })
}

fn rename(alloc: Global) -> Result<Undo, NoMemory>
    ensures { IfOk result IsRecord }
{
    Ok(Undo::Rename {
        from: shared_name(alloc, b"made")?,
        to: shared_name(alloc, b"moved")?,
    })
}

fn append(alloc: Global) -> Result<Undo, NoMemory>
    ensures { IfOk result IsRecord }
{
    Ok(Undo::Append {
        file: MADE,
        from: 0,
        after: Chunk::new(alloc, b"hello")?,
        n: 5,
    })
}

// The records of a file that was made, renamed from `made` to `moved`, and appended to.
fn chain(alloc: Global) -> Result<Stack, NoMemory> {
    let mut stack = Stack::new(alloc);
    stack.push(create(alloc)?)?;
    stack.push(rename(alloc)?)?;
    stack.push(append(alloc)?)?;
    Ok(stack)
}

fn has_made(host: &mut TestHost, made: &Name, moved: &Name) -> bool {
    host.create(made, MADE).is_ok()
        && host.rename(made, moved).is_ok()
        && host.append(MADE, b"hello").is_ok()
}

fn is_undone(host: &mut TestHost, mut stack: Stack) -> bool {
    stack.undo_next(host, 1) == UNDONE
        && stack.undo_next(host, 1) == UNDONE
        && stack.undo_next(host, 1) == UNDONE
        && stack.undo_next(host, 1) == UndoTurn::Ended
}

// The file is gone with its name, and the other file is there.
fn is_undone_call_by_call(mut host: TestHost, made: &Name, moved: &Name, stack: Stack) -> bool {
    let calls = [
        AskedCall::plain(Create),
        AskedCall::plain(Rename),
        AskedCall::new(Append, 0, 5),
        AskedCall::new(Cut, 0, 0),
        AskedCall::plain(NameBack),
        AskedCall::plain(Uncreate),
    ];
    has_made(&mut host, made, moved)
        && is_undone(&mut host, stack)
        && host.names.len() == 1
        && host.log.as_slice() == calls.as_slice()
}

#[test]
fn a_chain_is_undone_call_by_call(rt: HostRuntime) -> Result<(), Fail> {
    let (made, moved) = (name(b"made")?, name(b"moved")?);
    let stack = chain(rt.alloc())?;
    let host = host_of(rt.alloc(), b"")?;
    assert!(rt; is_undone_call_by_call(host, &made, &moved, stack));
    Ok(())
}

// ---- a pipe

// A pipe that was made.
const PIPE: Num = Num { tx: 1, k: 1 };

fn with_pipe(alloc: Global) -> Result<Stack, NoMemory> {
    let mut stack = Stack::new(alloc);
    stack.push(Undo::NewPipe(PIPE))?;
    Ok(stack)
}

// A try that failed is told.
fn drops_the_pipe(mut host: TestHost, mut stack: Stack) -> bool {
    host.fails = [2, 0, 0];
    let calls = [
        AskedCall::plain(NewPipe),
        AskedCall::plain(DropPipe),
        AskedCall::plain(DropPipe),
    ];
    host.new_pipe(PIPE).is_ok()
        && stack.undo_next(&mut host, 3) == UndoTurn::Undone { faults: 1 }
        && host.log.as_slice() == calls.as_slice()
}

#[test]
fn a_new_pipe_is_dropped(rt: HostRuntime) -> Result<(), Fail> {
    let stack = with_pipe(rt.alloc())?;
    assert!(rt; drops_the_pipe(host_of(rt.alloc(), b"")?, stack));
    Ok(())
}

// ---- a block

// The record of an overwrite of "a" at place 0.
fn overwrite_front(alloc: Global) -> Result<Undo, NoMemory>
    ensures { IfOk result IsRecord }
{
    Ok(Undo::Overwrite {
        file: FILE,
        at: 0,
        before: Chunk::new(alloc, b"a")?,
        after: Chunk::new(alloc, b"A")?,
        n: 1,
    })
}

// A record before the save of a block, and one of the block.
fn with_block(alloc: Global) -> Result<Stack, NoMemory>
    ensures { IfOk result (λ stack. (length stack.pending ≡ 2) × (stack.ended ≡ [])) }
{
    let mut stack = Stack::new(alloc);
    stack.push(overwrite(alloc)?)?;
    stack.push(overwrite_front(alloc)?)?;
    Ok(stack)
}

// The block's record is undone at the second try and dropped, and the other one stays.
fn goes_back(mut host: TestHost, mut stack: Stack) -> bool
    requires two { length stack.pending ≡ 2 }
    requires none { stack.ended ≡ [] }
{
    host.fails = [1, 0, 0];
    let UndoTurn::Undone { faults } = stack.undo_to(&mut host, 2, 1) else {
        return false;
    };
    if stack.undo_to(&mut host, 2, 1) != UndoTurn::Ended {
        return false;
    }
    stack.forget(1);
    let calls = [AskedCall::new(Restore, 0, 1), AskedCall::new(Restore, 0, 1)];
    faults == 1
        && stack.mark() == 1
        && host.bytes.as_slice() == b"abCDEFGh".as_slice()
        && host.log.as_slice() == calls.as_slice()
}

#[test]
fn the_records_of_a_block_are_undone(rt: HostRuntime) -> Result<(), Fail> {
    let stack = with_block(rt.alloc())?;
    assert_eq!(rt; stack.mark(), 2);
    assert!(rt; goes_back(host_of(rt.alloc(), b"AbCDEFGh")?, stack));
    Ok(())
}
