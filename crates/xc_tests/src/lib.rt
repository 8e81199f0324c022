//! Tests of the parts that a run is made of: plain data, lists, words, claims, the hosts, the calls on files with what
//! undoes and ends them, the plain machine as it runs, and the printed text.
#![tactic(auto)]

#[cfg(test)]
mod tests;
