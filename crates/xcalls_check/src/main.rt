//! Reads a script, a line `====` and a printed journal on standard input, and says on standard output whether the journal is true. With
//! `--prologue` the journal is one of clients, and the script their prologue.
#![tactic(auto)]

mod answer;
mod halves;
mod lines;
mod program;
mod settings;
mod status;

use crate::program::run_program;
use std::process::ExitCode;
use xc_edge::{StdSink, StdSource, words};

fn main(rt: HostRuntime) -> ExitCode {
    let mut source = StdSource::new(rt.stdin());
    let mut sink = StdSink::new(rt.stdout());
    let status = run_program(&rt, words(&rt), &mut source, &mut sink);
    ExitCode::from(status.number())
}
