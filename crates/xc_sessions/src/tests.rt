use crate::{ServeStatus, Status, serve_run};
use std::alloc::{AllocGlobal, Global};
use std::sync::Wait;
use std::test::Fail;
use std::thread::Threads;
use xc_data::{CallNumbers, Chunk, NoMemory};
use xc_edge::{MemSink, MemSource};
use xc_links::{MemLink, MemLinkList, MemLinks};
use xc_memhost::MemHost;
use xc_serve::SessionEnd;

const SCRIPT: &str = "word 0 100\njob main\ntx\nload 0 -> x\nstore 0 x + 5\ncommit\nend\n";

const ITS_TEXT: &str = "commit t1 job 1 rank 1 began 0
  load 0 = 100
  store 0 105 = done
  held word 0
job 1 main done
word 0 105
total 1 committed, 0 aborted, 0 faults, 0 remains
";

const ANSWERS: &str = "seen 0
commit t1 job 1 rank 1 began 0
  load 0 = 100
  store 0 105 = done
  held word 0
job 1 main done
no job
commit t1 job 1 rank 1 began 0
  load 0 = 100
  store 0 105 = done
  held word 0
not yet
bye
";

const ASKED: &str = "seen\nwork\nwork\nentry 0\nentry 1\nquit\n";

// What came of a run with one session.
#[derive(Clone, Copy, PartialEq, Eq)]
struct Told {
    status: ServeStatus,
    // The run's text was written.
    is_written: bool,
    // How the session ended, where there was one, and whether its link got these answers, or a front of them.
    end: Option<SessionEnd>,
    is_answered: bool,
    is_front: bool,
}

// The call of this number alone.
fn only(alloc: Global, number: u64) -> Result<CallNumbers, NoMemory> {
    let mut numbers = CallNumbers::new(alloc);
    numbers.push(number)?;
    Ok(numbers)
}

// A link that sends this. Its listed reads and writes fail.
fn link(
    alloc: Global,
    sent: &[u8],
    reads: CallNumbers,
    writes: CallNumbers,
) -> Result<MemLink, NoMemory> {
    let source = MemSource::new(Chunk::new(alloc, sent)?, reads, 4096);
    let sink = MemSink::new(alloc, writes, 4096, 65_536)?;
    Ok(MemLink::new(source, sink))
}

// This link alone. The listed accepts fail.
fn alone(alloc: Global, link: MemLink, accepts: CallNumbers) -> Result<MemLinks, NoMemory> {
    let mut list = MemLinkList::new(alloc);
    list.push(link)?;
    Ok(MemLinks::new(list, accepts))
}

// A link that sends this, and does not fail.
fn links(alloc: Global, sent: &[u8]) -> Result<MemLinks, NoMemory> {
    let none = CallNumbers::new(alloc);
    let link = link(alloc, sent, none, CallNumbers::new(alloc))?;
    alone(alloc, link, CallNumbers::new(alloc))
}

fn serve<R: AllocGlobal + Threads + Wait + Sync>(
    rt: &R,
    links: MemLinks,
    answers: &[u8],
) -> Result<Told, NoMemory> {
    let alloc = rt.alloc();
    let script = Chunk::new(alloc, SCRIPT.as_bytes())?;
    let mut source = MemSource::new(script, CallNumbers::new(alloc), 4096);
    let mut sink = MemSink::new(alloc, CallNumbers::new(alloc), 4096, 65_536)?;
    let host = MemHost::new(alloc);
    let served = serve_run(rt, &[], &mut source, &mut sink, host, links);
    let session = served.sessions.as_slice().first();
    Ok(Told {
        status: served.status,
        is_written: sink.taken() == ITS_TEXT.as_bytes(),
        end: session.map(|session| session.end),
        is_answered: session.is_some_and(|session| session.link.taken() == answers),
        is_front: session.is_some_and(|session| answers.starts_with(session.link.taken())),
    })
}

// Whether a failure of the link cut the session off: its link got a front of the answers, and the run's text was written.
fn is_cut_off<R: AllocGlobal + Threads + Wait + Sync>(
    rt: &R,
    reads: CallNumbers,
    writes: CallNumbers,
) -> Result<bool, NoMemory> {
    let link = link(rt.alloc(), ASKED.as_bytes(), reads, writes)?;
    let links = alone(rt.alloc(), link, CallNumbers::new(rt.alloc()))?;
    let told = serve(rt, links, ANSWERS.as_bytes())?;
    Ok(
        told.status == ServeStatus::Ran(Status::Done)
            && told.is_written
            && told.end == Some(SessionEnd::LinkFault)
            && told.is_front
            && !told.is_answered,
    )
}

#[test]
fn a_session_asks_for_all(rt: HostRuntime) -> Result<(), Fail> {
    let links = links(rt.alloc(), ASKED.as_bytes())?;
    let due = Told {
        status: ServeStatus::Ran(Status::Done),
        is_written: true,
        end: Some(SessionEnd::Quit),
        is_answered: true,
        is_front: true,
    };
    assert!(rt; serve(&rt, links, ANSWERS.as_bytes())? == due);
    Ok(())
}

#[test]
fn a_line_of_65_bytes_is_too_long(rt: HostRuntime) -> Result<(), Fail> {
    let sent = b"werk\naaaaaaaaaaaaaaaaaaaaaaaaaaaaaaaaaaaaaaaaaaaaaaaaaaaaaaaaaaaaaaaaa\n";
    let links = links(rt.alloc(), sent)?;
    let due = Told {
        status: ServeStatus::Ran(Status::Done),
        is_written: true,
        end: Some(SessionEnd::TooLong),
        is_answered: true,
        is_front: true,
    };
    assert!(rt; serve(&rt, links, b"bad line\ntoo long\n")? == due);
    Ok(())
}

#[test]
fn an_accept_fails(rt: HostRuntime) -> Result<(), Fail> {
    let none = CallNumbers::new(rt.alloc());
    let link = link(rt.alloc(), b"quit\n", none, CallNumbers::new(rt.alloc()))?;
    let links = alone(rt.alloc(), link, only(rt.alloc(), 1)?)?;
    let due = Told {
        status: ServeStatus::AcceptFault,
        is_written: true,
        end: None,
        is_answered: false,
        is_front: false,
    };
    assert!(rt; serve(&rt, links, b"")? == due);
    Ok(())
}

// A line is read a byte at a time: each byte of what the link sends has a read of its own.
#[test]
fn each_read_of_a_link_fails_in_turn(rt: HostRuntime) -> Result<(), Fail> {
    for call in 1..37u64 {
        let none = CallNumbers::new(rt.alloc());
        assert!(rt; is_cut_off(&rt, only(rt.alloc(), call)?, none)?);
    }
    Ok(())
}

// Each answer is one write.
#[test]
fn each_write_of_a_link_fails_in_turn(rt: HostRuntime) -> Result<(), Fail> {
    for call in 1..7u64 {
        let none = CallNumbers::new(rt.alloc());
        assert!(rt; is_cut_off(&rt, none, only(rt.alloc(), call)?)?);
    }
    Ok(())
}
