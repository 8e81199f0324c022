//! Makes a script from a seed, and sums up what a run of it left.
//!
//! The script has 64 words of 1,000 each, and 20 jobs of 25 transfers between them. `specs/Generated` has its text, line by line.
//! `specs/Summary` has the line that sums up a run.
#![tactic(auto)]

mod draws;
mod script;
mod sums;
mod transfer;

pub use script::generate;
pub use sums::summary;

#[cfg(test)]
mod tests;
