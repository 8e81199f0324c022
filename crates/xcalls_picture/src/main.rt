//! Reads a printed journal on standard input and prints its picture on standard output, as an SVG text.
#![tactic(auto)]

mod program;
mod status;

use crate::program::{draw, refuse_words};
use std::io;
use std::process::ExitCode;
use xc_edge::{StdSink, StdSource, words};

// No option is taken.
fn is_wordless(words: &io::Result<Vec<String>>) -> bool {
    match words {
        Ok(words) => words.is_empty(),
        Err(_) => false,
    }
}

fn main(rt: HostRuntime) -> ExitCode {
    let mut source = StdSource::new(rt.stdin());
    let mut sink = StdSink::new(rt.stdout());
    let status = if is_wordless(&words(&rt)) {
        draw(rt.alloc(), &mut source, &mut sink)
    } else {
        refuse_words(&mut sink)
    };
    ExitCode::from(status.number())
}
