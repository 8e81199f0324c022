//! The numbers of the tokens that the code tests.

/// What a literal means, before its repeat.
pub const MOST_LITERAL_BYTES: usize = 1024;
/// How often a literal may be repeated.
pub const MOST_REPEAT: u64 = 65_536;
/// A number's digits, zeros in front too.
pub const MOST_DIGITS: usize = 20;
