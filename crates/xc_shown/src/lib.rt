//! What the lines of a printed journal show: each entry but for what its text leaves out, and the lines behind the entries.
#![tactic(auto)]

mod counted;
mod front;
mod gathered;
mod parted;
mod shown;

pub use counted::line_count;
pub use parted::{Parted, part};
pub use shown::Shown;
pub use xc_data::NoMemory;
