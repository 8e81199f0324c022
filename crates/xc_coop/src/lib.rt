//! The cooperative runner: a script is read, all its jobs are polled as one future, in one thread, and what came of them is printed.
#![tactic(auto)]

mod chosen;
mod options;
mod program;
mod run;
mod start;
mod turns;
mod usage;

pub use chosen::CoopChosen;
pub use options::coop_settings;
pub use program::run_program;
pub use run::coop_run;
pub use turns::take_cooperatively;
pub use xc_outcome::{Finish, LIMIT, Status};
pub use xc_settings::SettingsErr;
