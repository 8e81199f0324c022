//! Entries that a text shows alike: a text has of a record that was undone neither bytes nor length, and nothing that is asked of an
//! entry but its records depends on those. Laws, with no code.
#![tactic(auto)]

pub mod law;
