//! A printed journal, read line by line.
//!
//! Each line is read by `xc_lines`, printed again and compared, so a line is read exactly where its text stands. `read_sheet` reads
//! all lines of a text, each in its place: it stops at the first one that may not stand there. The text of an end, as `xc_print` gives
//! it, is read whole.
#![tactic(auto)]

mod ending;
pub mod law;
mod lines;
mod places;
mod printed;
mod sheet;
mod stepping;
#[cfg(test)]
mod tests;

pub use ending::Ending;
pub use lines::Line;
pub use places::LinePlace;
pub use printed::{printed_line, push_line};
pub use sheet::{MOST_TEXT_BYTES, Sheet, Unreadable, read_sheet};
pub use stepping::next_line;
