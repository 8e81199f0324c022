//! A run with sessions: a script is read, links are accepted and served one beside another, what is left of the jobs is run to its
//! end, and the text is written.
#![tactic(auto)]

mod chosen;
mod options;
mod program;
mod run;
mod serve;
mod start;
mod usage;

pub use chosen::ServeChosen;
pub use options::{serve_port, serve_settings};
pub use program::{run_program, with_port};
pub use run::serve_run;
pub use serve::{Serve, ServeStatus};
pub use xc_meet::Session;
pub use xc_outcome::{LIMIT, Status};
pub use xc_settings::SettingsErr;

#[cfg(test)]
mod tests;
