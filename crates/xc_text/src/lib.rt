//! The script: its grammar, and what a script says.
//!
//! `parse` reads a script exactly where the grammar of `specs/` has one, and else answers the first
//! bad line with its first reason.
//!
//! What a line of a transaction passes on its way is inlined, so that its parts are not handed on in memory.
#![tactic(auto)]

mod block_names;
mod calls;
mod counted;
mod draft;
mod file_names;
mod grammar;
mod kept;
mod kinds;
mod limits;
mod line;
mod names;
mod objects;
mod packed;
mod parse_err;
mod parser;
mod pieces;
mod places;
mod script;
mod shapes;
mod source;
mod term;
mod written;

pub use kept::{Form, KeptStatement};
pub use packed::PackedU64;
pub use parse_err::ParseErr;
pub use parser::parse;
pub use script::{
    Block, Body, CallForm, Data, Expression, Item, NameIndex, Script, Statement, Term, Test,
};
pub use xc_tokens::Why;
