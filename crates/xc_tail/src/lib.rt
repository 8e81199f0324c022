//! The lines behind the entries of a printed journal, judged: how the jobs ended, the words, the kept data, and the totals.
#![tactic(auto)]

mod job_left;
mod jobs;
mod kept;
mod tail;
mod totals;
mod words;

pub use job_left::JobLeft;
pub use tail::is_tail;
pub use totals::totals_of_shown;
pub use xc_data::NoMemory;
