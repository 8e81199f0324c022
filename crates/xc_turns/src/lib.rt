//! Each turn of a station keeps what is true of it between two turns, over every host: laws, with no code.
#![tactic(auto)]

pub mod alone;
pub mod clients;
pub mod counted;
pub mod endings;
pub mod growing;
pub mod handled;
pub mod holding;
pub mod measured;
pub mod numbers;
pub mod parts;
pub mod spoken;
pub mod starting;
pub mod stories;
pub mod waiting;
