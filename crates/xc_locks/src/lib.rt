//! The table of claims: which transaction holds which object, and in which mode.
#![tactic(auto)]

mod claiming;
mod claims;
mod holders;
mod holding;
mod key;
mod law;
mod object_holders;
mod others;
mod placing;
mod raising;
mod reading;
mod refusal;
mod releasing;
mod steps;
mod words;

pub use claims::Claims;
pub use holding::Holding;
pub use law::a_row_follows_the_held_list;
pub use refusal::ClaimErr;
pub use steps::Steps;
