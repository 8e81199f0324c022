//! Each turn of a station over a host that tells keeps it the plain machine's: laws, with no code.
#![tactic(auto)]

pub mod during;
pub mod turning;
