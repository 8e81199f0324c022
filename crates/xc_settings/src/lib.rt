//! The words of a command line: the options that a run is given, and what they choose.
//!
//! `settings` takes the words exactly where `settings_of` of `specs/` has a choice for them, and
//! answers that choice. A command of `clap` reads them.
#![tactic(auto)]

mod chosen;
mod options;
mod values;

pub use chosen::{Chosen, SettingsErr};
pub use options::settings;
