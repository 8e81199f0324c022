//! The text of a run over a host that tells its contents is one that the checker of printed journals calls true, and says yes to.
#![tactic(auto)]

pub mod law;
mod own;

pub use own::check_own;
