//! Tests of what a whole run goes through: workers in step, and a station whose transactions are finished on demand.
#![tactic(auto)]

#[cfg(test)]
mod tests;
