//! Runs the script on standard input in one thread, all its jobs polled, and prints its journal on standard output.
#![tactic(auto)]

use std::process::ExitCode;
use xc_coop::run_program;
use xc_edge::{StdSink, StdSource, words};
use xc_memhost::MemHost;

fn main(rt: HostRuntime) -> ExitCode {
    let mut source = StdSource::new(rt.stdin());
    let mut sink = StdSink::new(rt.stdout());
    let host = MemHost::new(rt.alloc());
    let status = run_program(&rt, words(&rt), &mut source, &mut sink, host);
    ExitCode::from(status.number())
}
