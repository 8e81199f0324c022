//! Stored compensations: what undoes the calls of a transaction that is given up.
#![tactic(auto)]

mod stack;
mod taking_back;
mod undoing;

pub use stack::{Stack, UndoTurn};
