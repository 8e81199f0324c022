//! A host in memory that follows the prologue of a script, and what its calls answer exactly.
#![tactic(auto)]

mod calls;
mod faults;
mod file_body;
mod mem_host;
mod messages;
mod objects;
mod pair_body;
mod pipe_body;
mod spans;

pub use calls::{AnswerList, HostAnswer, HostCall, run_calls};
pub use mem_host::MemHost;
