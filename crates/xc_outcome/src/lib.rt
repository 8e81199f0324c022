//! A run but for its words and its turns: how it is prepared, what its end is, which status it has, and what is written of it.
//!
//! A program chooses rules and perhaps a seed, `prepare`s a station, has the turns of all jobs taken in its own way, and ends
//! by `finish_run`.
#![tactic(auto)]

mod choice;
mod due;
mod ending;
mod ends;
mod finish;
mod lines;
mod preparing;

pub use choice::Choice;
pub use due::{Due, write_due};
pub use ending::{finish_run, finish_without};
pub use ends::status_of;
pub use finish::{Finish, LIMIT, Status};
pub use preparing::{NotRun, no_memory, prepare};
