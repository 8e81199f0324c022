//! The calls on files, over any host.
//!
//! Where the host tells, each reply is the plain machine's.
#![tactic(auto)]

mod appending;
mod checks;
mod creating;
mod deferring;
mod handles;
mod moving;
mod opening;
mod overwriting;
mod reading;
mod renaming;
mod writing;

pub use appending::x_write_seq;
pub use creating::x_create;
pub use deferring::{x_sync, x_unlink};
pub use handles::{x_close, x_len, x_seek};
pub use opening::x_open;
pub use overwriting::x_write_ovr;
pub use reading::x_read;
pub use renaming::x_rename;
