//! The numbers of the grammar that the code tests.

/// A script's bytes.
pub const MOST_SCRIPT_BYTES: usize = 1_048_576;
/// Words that a line may ask for.
pub const MOST_WORDS: u64 = 4096;
/// Words where no line gives their number.
pub const FIRST_WORDS: u64 = 16;
/// Objects of a prologue.
pub const MOST_OBJECTS: usize = 4096;
/// Pipes among them.
pub const MOST_PIPES: u32 = 64;
/// Socket pairs among them.
pub const MOST_PAIRS: u32 = 32;
/// The bytes that a pipe opens with.
pub const MOST_PIPE_BYTES: u32 = 4096;
/// The grain of a host.
pub const MOST_GRAIN: u64 = 65_536;
/// Blocks of a script.
pub const MOST_BLOCKS: usize = 1000;
/// A block's transactions.
pub const MOST_TRANSACTIONS: usize = 1000;
/// A transaction's calls.
pub const MOST_CALLS: u32 = 256;
/// A script's variables, and its slots.
pub const MOST_NAMES: usize = 256;
/// The parts of the data of a write.
pub const MOST_ITEMS: usize = 16;
