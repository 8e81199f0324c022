//! The calls on pipes, over any host with kept data in front of what it holds.
//!
//! Where the host tells, each reply is the plain machine's over both.
#![tactic(auto)]

mod checks;
mod deferring;
mod holding;
mod making;
mod reading;

pub use deferring::{x_shutdown, x_write_pipe};
pub use making::x_pipe;
pub use reading::x_read_pipe;
