//! Several active transactions in flight over one world: what is true of all of them at each moment,
//! and that each turn of one keeps it. Plain data and laws, with no code; the station of several jobs stands on it.
//! It needs no host and no table of claims: what a transaction has is read off the claims it holds.
//!
//! 1. The journal's state S is the world after the transactions that entered, one after another.
//! 2. The station's world is its words with what is outside. Active transactions have changed it.
//! 3. A transaction has what it holds, and owns what it holds exclusively or made itself.
//! 4. What one owns no other has. What nobody owns is in the station as it is in S.
//! 5. The body of each active one, run on S alone, gives what it noted: replies, records, late calls.
//! 6. What it owns is in the station as that body left it; its stores wait until it commits.
//! 7. While it undoes, what it took from pipes and pairs is still to be given back.
//! 8. A turn changes only what its transaction owns, so all others fly on as if it weren't there.
//! 9. An entry makes S what its run or its remains tell; so the order of entries is a serial order.
//! 10. Where nobody is active, the station's world is S.
//!
//! ```text
//!             reads only          owns
//!   1   [ file b, word 0 ]   [ file a, word 1, pipe 1.0 ]      both read file b and word 0,
//!   2   [ file b, word 0 ]   [ word 2, name "x" ]              which are in the station as in S
//!
//!   S         file a   file b   word 0   word 1   word 2   name "x"
//!   station   by 1     as S     as S     as S *   as S *   by 2         * the stores wait
//! ```
#![tactic(auto)]

pub mod flying;
pub mod soundness;
pub mod turns;
