//! The calls on socket pairs, over any host with kept data in front of what it holds.
//!
//! Where the host tells, each reply is the plain machine's over both.
#![tactic(auto)]

mod checks;
mod making;
mod receiving;
mod sending;

pub use making::x_pair;
pub use receiving::x_recvmsg;
pub use sending::x_sendmsg;
