//! The journal of a run: the entries of the transactions that ended. Those so far can be handed out; what clauses say of the
//! journal goes on to speak of all entries.
#![tactic(auto)]

mod gone;
mod journal;

pub use journal::Journal;
