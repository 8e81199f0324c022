//! Reads a script on standard input, serves sessions over connections to a port of 127.0.0.1, and prints the journal on standard
//! output.
#![tactic(auto)]

use std::process::ExitCode;
use xc_edge::{StdSink, StdSource, words};
use xc_links::TcpLinks;
use xc_memhost::MemHost;
use xc_sessions::{run_program, with_port};

fn main(rt: HostRuntime) -> ExitCode {
    let mut source = StdSource::new(rt.stdin());
    let mut sink = StdSink::new(rt.stdout());
    let host = MemHost::new(rt.alloc());
    let (words, port) = with_port(rt.alloc(), words(&rt));
    let links = TcpLinks::new(rt, port);
    let status = run_program(&rt, words, &mut source, &mut sink, host, links);
    ExitCode::from(status.number())
}
