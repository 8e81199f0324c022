//! A turnstile: a value with a journal that one pass at a time holds, and passes that know what they have seen of it.
#![tactic(auto)]

mod chronicle;
mod pair;
mod rule;
mod turnstile;
mod view;

pub use chronicle::Chronicle;
pub use pair::enter_two;
pub use turnstile::{Entered, Hold, Pass, Turnstile};
pub use view::View;
