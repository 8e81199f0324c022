//! A journal judged entry by entry by the plain machine as it runs: where it led so far, and the first reason for which an entry is
//! false.
#![tactic(auto)]

mod abort;
mod accessors;
mod basis;
mod counted;
mod effects;
mod enter;
mod entering;
mod faults;
mod handles;
mod holding;
mod left;
mod legal;
mod numbers;
mod progress;
mod ran;
mod reason;
mod records;
mod same;
mod standing;
mod step;
mod stepped;
mod story;
mod undos;

pub use basis::Basis;
pub use progress::Progress;
pub use reason::Reason;
pub use standing::Standing;
pub use stepped::{Step, Stepped};
pub use xc_data::NoMemory;
