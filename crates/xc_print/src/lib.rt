//! The printed text of a run, exactly.
//!
//! Each printer appends one part of the text to a page, and its contract names that part: a reply, a
//! call, a line. `write_text` writes the whole text, as `rendered` of `specs/Text` says it, a piece at a time.
//! The other public printers are for who reads a text and prints what was read again.
#![tactic(auto)]

mod bytes;
mod calls;
mod entries;
mod kept;
mod objects;
mod page;
mod paper;
mod records;
mod rendering;
mod replies;
mod said;
mod sheet;
mod totals;

pub use bytes::push_bytes;
pub use entries::{push_call_line, push_cause};
pub use kept::push_message;
pub use objects::{push_held, push_labelled};
pub use page::Page;
pub use paper::Paper;
pub use records::{push_made, push_moved, push_overwrite, push_tail, push_undo_end};
pub use rendering::{entry_text, job_text, push_totals, write_text};
pub use replies::push_late_end;
pub use totals::{Totals, end_faults_of, entry_faults_of, remaining_effects};
