//! The plain machine as it runs: an executable copy of what each call does to a world.
#![tactic(auto)]

mod body;
mod held;
mod lates;
mod left;
mod replay;
mod replaying;
mod run;
mod traced;
mod world;

pub use held::hold;
pub use lates::replay_lates;
pub use left::put_remains;
pub use replaying::{what_ends_so, what_is_replayed};
pub use run::Replied;
pub use traced::{Traced, replay_traced};
pub use world::World;
pub use xc_data::NoMemory;
