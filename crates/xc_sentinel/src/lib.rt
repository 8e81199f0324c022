//! Claims with the active transactions that make them: an older one revokes a younger one that holds what it claims.
#![tactic(auto)]

mod key_tree;
mod keys;
mod seat;
mod seats;
mod sentinels;

pub use seat::{ClaimVerdict, Seat};
pub use sentinels::Sentinels;
