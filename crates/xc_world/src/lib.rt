//! The plain machine: what each call does to a world of whole lists and maps, by definition, with
//! the laws of calls and of whole bodies; and what a call checks and touches.
#![tactic(auto)]

pub mod beside;
pub mod checks;
pub mod effects;
mod handles;
pub mod law;
mod remaining;
mod touch;
pub mod undoing;
pub mod whole;

pub use handles::opening_private;
pub use remaining::{a_report_remains_exactly_where_an_effect_stands, remaining_from};
pub use touch::push_claims;
pub use xc_data::NoMemory;
