//! Transaction numbers, and conflicts that name a holder: what is judged of a whole journal.
#![tactic(auto)]

mod clashes;
mod grounds;
mod numbers;
mod part;
mod places;

pub use grounds::first_groundless;
pub use numbers::first_misnumbered;
pub use part::Part;
pub use xc_data::NoMemory;
