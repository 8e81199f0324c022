//! The parts of a printed line, read.
//!
//! A reader takes what stands at a cursor, and its contract names the definition of `specs/` that says what that is. Readers are
//! lenient: a number with a zero before it, or another spelling of a byte, is read too. So what is read is printed again and
//! compared, a line at a time, where lines are read. The laws of this crate say the other half: what is printed is read.
#![tactic(auto)]

mod calls;
mod cursor;
mod heads;
mod held;
pub mod law;
mod numbers;
mod objects;
mod quoted;
mod replies;
mod shown;
mod stop;
mod tails;

pub use calls::read_call;
pub use cursor::Cursor;
pub use heads::{Head, read_head};
pub use held::{read_claim, read_further};
pub use replies::{read_late_end, read_reply};
pub use shown::{EffectShown, JobShown, UndoKind};
pub use stop::ReadStop;
pub use tails::{read_job_end, read_kept, read_kind, read_standing, read_undo_end};
