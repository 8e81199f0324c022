//! What the end of a run has is within the ranges of its types: each number, byte and name by its type, and each list since an item
//! of it takes a byte of the text at least.
//!
//! These are laws with code: a function looks at each item, and does nothing. Other laws call them.
#![tactic(auto)]

mod calls;
mod end;
mod entries;
mod parts;
mod records;

pub use end::end_in_range;
