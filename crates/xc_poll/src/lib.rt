//! Jobs as futures: each poll takes some of a job's turns, and gives the station back; and all jobs as one future.
#![tactic(auto)]

mod all;
mod asking;
mod crew;
mod parting;
mod round;
mod task;

pub use all::All;
pub use asking::Asked;
pub use round::Waits;
pub use task::JobTask;

#[cfg(test)]
mod tests;
