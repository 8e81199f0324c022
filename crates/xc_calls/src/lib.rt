//! What is said of any call on a host, on which the crates of calls stand side by side: laws, with no code.
#![tactic(auto)]

mod law;

pub use law::{a_call_without_the_host_is_a_host_call, a_check_refuses_as_the_plain_machine};
