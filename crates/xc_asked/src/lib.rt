//! What a script asked of the jobs of a journal: the started jobs, each before its next transaction, and whether the calls of an entry
//! are the script's. Where clients ask, any calls are theirs.
#![tactic(auto)]

mod blocks;
mod clients;
mod kept;
mod same_call;
mod script_job;
mod script_jobs;
mod starts;
mod walk;

pub use kept::{kept_count, started};
pub use script_job::Followed;
pub use script_jobs::ScriptJobs;
pub use xc_data::NoMemory;
