//! What lies outside the transactions: the host that their calls go to.
//!
//! A host may tell its contents. What contracts say of contents holds for hosts that do.
#![tactic(auto)]

mod errors;
mod host;
mod kind_counts;
mod law;
mod pipes;

pub use errors::{Fault, HostErr, OpenErr};
pub use host::Host;
pub use kind_counts::{KINDS, KindCounts, place_of};
pub use law::{a_front_grows, a_write_keeps_the_length};
pub use pipes::{HostState, Took};
