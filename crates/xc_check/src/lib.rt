//! A printed journal, checked against a script, or against the prologue of clients.
#![tactic(auto)]

mod entries;
mod judging;
mod lists;
mod text;
mod verdict;
mod whole;

pub use text::check;
pub use verdict::{CheckWhy, Verdict};
pub use xc_judge::Basis;
