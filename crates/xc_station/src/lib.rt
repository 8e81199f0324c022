//! The core: jobs take turns, each turn one row of the table of turns, and the journal tells what they did.
#![tactic(auto)]

mod backing;
mod begin_tx;
mod blocks;
mod buffers;
mod calls;
mod child_jobs;
mod client_turns;
mod end_tx;
mod job;
mod places;
mod run_result;
mod running;
mod schedule;
mod station;
mod tx;

pub use run_result::{End, NotStarted, Opening};
pub use schedule::{drain, run_schedule, work_alone};
pub use station::Station;
