//! A host for the tests of the crates above hosts.
#![tactic(auto)]

mod pairs;
mod pipes;
mod tails;
mod test_host;

pub use test_host::{AskedCall, TestHost};
