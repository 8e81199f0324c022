//! Workers: threads that take turns of one station after a turnstile, each with a pass of its own.
#![tactic(auto)]

mod backoff;
mod pace;
mod tries;
mod worker;
mod workers;

pub use pace::{HoldPace, NoPace, Pace};
pub use tries::{Tried, try_pick, try_turn};
pub use worker::{enter, pick, turn, work, work_job};
pub use workers::{run_workers, work_together};
