//! Bytes that are looked at several at once.
#![tactic(auto)]

mod masks;
mod runs;

pub use masks::{LANES, first_set, next_set};
pub use runs::{ByteKind, front_len};
