//! The call that starts a job, which is kept for the commit.
#![tactic(auto)]

mod deferring;

pub use deferring::x_thread_create;
