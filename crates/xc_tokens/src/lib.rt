//! What a script's text is before it says anything: its lines, the tokens of a line, and what words
//! and literals alone mean.
#![tactic(auto)]

mod escaped;
mod front;
mod limits;
mod lines;
mod literals;
mod numbers;
mod reason;
mod spelled;
mod tables;
mod token;
mod why;
mod words;

pub use escaped::Escaped;
pub use lines::{TextLine, first_line};
pub use literals::{are_literals, contents, is_within, repeated};
pub use numbers::{is_digit_byte, spelled_number};
pub use reason::{beside, both};
pub use spelled::IdentWord;
pub use tables::by_word;
pub use token::{Token, read_tokens};
pub use why::{Stop, Why};
pub use words::{ident, ident_token, ident_word, is_sign, name, number, number_word, spells};
