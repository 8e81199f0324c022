//! A list that only grows, into room that was made before: what has to be noted once an effect is
//! done has its place before the effect is begun. The entries of a journal are one.
#![tactic(auto)]

mod roomy;

pub use roomy::Roomy;
