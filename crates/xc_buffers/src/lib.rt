//! Data that transactions took from pipes and pairs: each notes what it took, and what an aborted one noted is kept for the
//! readers after it, in front of what the host holds.
#![tactic(auto)]

mod kept;
mod rows;
mod source;
mod taken;

pub use kept::Kept;
pub use source::Endpoint;
pub use taken::Taken;
