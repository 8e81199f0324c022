//! Limits that more than one crate tests.

/// The most bytes that one call carries or reads.
pub const MOST_CALL_BYTES: u64 = 1024;
/// The most bytes that a transaction stores: those that its calls carry and those that its reads give.
pub const MOST_STORED: u64 = 16_384;
/// The most bytes that a file has, which is also the furthest position in one.
pub const MOST_FILE_BYTES: u64 = 65_536;
/// The most objects that a transaction makes.
pub const MOST_MADE: u16 = 16;
