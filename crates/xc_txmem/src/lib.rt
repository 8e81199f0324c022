//! The words of memory, and a transaction's stores laid over them until it commits.
#![tactic(auto)]

mod words;
mod writes;

pub use words::Words;
pub use writes::WriteSet;
