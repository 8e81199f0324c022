//! The outside of a program: where its input comes from, and where its output goes.
//!
//! A source and a sink may tell the bytes that pass. Those in memory tell them all, and fail where
//! they are told to; those over a reader or a writer tell what that one tells.
#![tactic(auto)]

mod command_line;
mod memory;
mod standard;
mod streams;
mod whole;

pub use command_line::words;
pub use memory::{MemSink, MemSource};
pub use standard::{StdSink, StdSource};
pub use streams::{Failed, Sink, Source};
pub use whole::{ReadErr, read_up_to, write_front, write_whole};
