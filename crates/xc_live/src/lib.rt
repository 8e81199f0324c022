//! A desk: clients begin transactions and make calls one by one, over one station, and none of the calls waits. docs/LIVE.md says
//! what a client may do, and what each answer means.
#![tactic(auto)]

mod answers;
mod desk;
mod going;
mod law;

pub use answers::{Began, Called, Ended};
pub use desk::{Desk, NotOpened, WhyNotOpened};
pub use law::clients_leave_each_other;
