//! Finite maps whose keys are names, identifiers or numbers of objects. Contracts see them as finite
//! maps.
#![tactic(auto)]

mod aside;
mod ident_map;
mod name_map;
mod num_map;

pub use ident_map::IdentMap;
pub use name_map::NameMap;
pub use num_map::NumMap;
