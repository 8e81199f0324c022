//! Tests of what is around a station: claims of active transactions, the turnstile with a journal behind it, and the
//! reads and writes of a program.
#![tactic(auto)]

#[cfg(test)]
mod tests;
