//! A value on the heap as one pointer, which C can keep.
//!
//! C gets a struct of one field, a pointer to `Opaque`: a program's own, since the signature of an
//! exported function names no type with arguments. Two functions of one statement each turn it into
//! a `Handle` of this crate and back.
#![tactic(auto)]

mod handle;
mod loose;

pub use handle::{Handle, Opaque};
pub use loose::Loose;
