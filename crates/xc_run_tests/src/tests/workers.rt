use std::alloc::{AllocError, Global};
use std::sync::Wait;
use std::test::Fail;
use std::thread::Threads;
use xc_app::{HoldPace, Status, xcalls_run};
use xc_data::{CallNumbers, Chunk, NoMemory};
use xc_edge::{MemSink, MemSource};
use xc_memhost::MemHost;

fn push_job(script: &mut String, word: u32) -> Result<(), AllocError> {
    write!(script, "job j{word}\n")?;
    for value in 1..11u32 {
        write!(script, "tx\nstore {word} {value}\ncommit\n")?;
    }
    script.push_str("end\n")
}

// Two jobs of ten transactions with one store each, of four turns each; no job touches the other's word.
fn two_jobs(alloc: Global) -> Result<String, AllocError> {
    let mut script = String::new(alloc);
    push_job(&mut script, 0)?;
    push_job(&mut script, 1)?;
    Ok(script)
}

fn two_workers(alloc: Global) -> Result<Vec<String>, AllocError> {
    let mut words = Vec::new(alloc);
    words.push(String::from_str(alloc, "--workers")?)?;
    words.push(String::from_str(alloc, "2")?)?;
    Ok(words)
}

fn source(alloc: Global) -> Result<MemSource, NoMemory> {
    let script = two_jobs(alloc)?;
    let bytes = Chunk::new(alloc, script.as_bytes())?;
    Ok(MemSource::new(bytes, CallNumbers::new(alloc), 4096))
}

// How the run of both jobs ends, with a worker for each.
fn run_in_step<R: AllocGlobal + Threads + Wait + Sync>(
    rt: &R,
    pace: &HoldPace,
) -> Result<Status, NoMemory> {
    let alloc = rt.alloc();
    let words = two_workers(alloc)?;
    let mut source = source(alloc)?;
    let mut sink = MemSink::new(alloc, CallNumbers::new(alloc), 4096, 65_536)?;
    let host = MemHost::new(alloc);
    let finish = xcalls_run(rt, words.as_slice(), &mut source, &mut sink, host, pace);
    Ok(finish.status)
}

// After each of their forty turns the jobs wait for one another: none ends before the other has come as far.
#[test]
fn two_workers_keep_in_step(rt: HostRuntime) -> Result<(), Fail> {
    let pace = HoldPace::new(40, 1_000_000_000);
    assert!(rt; run_in_step(&rt, &pace)? == Status::Done);
    assert!(rt; pace.met());
    Ok(())
}
