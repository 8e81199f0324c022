//! File names that a program keeps for good, each in one place.
#![tactic(auto)]

mod names;

pub use names::{MOST_NAMES, Names, NotPlaced};
