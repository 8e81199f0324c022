//! The calls of a transaction that are kept for its commit, and are done at the host then.
#![tactic(auto)]

mod doing;
mod late;
mod putting;
mod sending;

pub use late::Late;
