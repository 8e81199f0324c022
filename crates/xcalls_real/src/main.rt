//! Runs the script on standard input over files of the current folder, pipes and sockets, and prints
//! its journal on standard output.
#![tactic(auto)]

use std::process::ExitCode;
use xc_app::run_program;
use xc_edge::{StdSink, StdSource, words};
use xc_realhost::RealHost;

fn main(rt: HostRuntime) -> ExitCode {
    let mut source = StdSource::new(rt.stdin());
    let mut sink = StdSink::new(rt.stdout());
    let host = RealHost::new(&rt);
    let status = run_program(&rt, words(&rt), &mut source, &mut sink, host);
    ExitCode::from(status.number())
}
