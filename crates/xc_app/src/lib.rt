//! The top call: a script is read, run and printed.
#![tactic(auto)]

mod program;
mod run;
mod start;
mod turns;
mod usage;

pub use program::run_program;
pub use run::{Unthreaded, run_without_threads, xcalls_run};
pub use start::Started;
pub use xc_outcome::{Finish, LIMIT, Status};
pub use xc_runner::{HoldPace, NoPace, Pace};
pub use xc_settings::{Chosen, SettingsErr, settings};
