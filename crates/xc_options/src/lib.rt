//! Options of a command line that are texts, from which numbers within bounds are read: what programs with such options share.
#![tactic(auto)]

mod bounds;
mod commands;
mod numbers;

pub use bounds::{
    DEFAULT_RULES, MOST_ATTEMPTS, MOST_PATIENCE, MOST_UNDO_TRIES, attempts, patience, rules,
    undo_tries,
};
pub use commands::{bare_command, read_words, with_text_option};
pub use numbers::{number, number_of};
pub use xc_settings::SettingsErr;
