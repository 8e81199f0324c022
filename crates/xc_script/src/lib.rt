//! A job's way through its block: what is asked next, and what a reply changes.
#![tactic(auto)]

mod answer;
mod ask;
mod calls;
mod data;
mod ends;
mod inner;
mod job;
mod law;
mod silent;
mod slots;
mod terms;
mod value;
mod values;

pub use ask::Ask;
pub use ends::goes_back;
pub use job::JobState;
pub use law::{
    a_variable_holds_its_last_handle, each_handle_is_in_a_variable, other_variables_hold_nothing,
    what_is_asked_fits_its_block,
};
