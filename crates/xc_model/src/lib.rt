//! What makes a journal true, and the table of turns that a station goes by: plain data and laws, with no code.
//!
//! 1. A journal is true of a script where running its transactions one after another on the plain machine gives what it says, and the
//!    script asked them: two parts, of which the first names no script.
//! 2. Between two turns a station is plain data: its words, what the host tells, its journal, and its jobs.
//! 3. A turn of a job is one row of the table of turns: from one such moment to the next.
//! 4. Each row keeps what is true between two turns, and where no job goes on the journal is true.
#![tactic(auto)]

mod origin;
mod phase;
mod rules;

pub use origin::Origin;
pub use phase::{Attempts, Phase};
pub use rules::Rules;
