use xc_data::{Boxed, Chunk, Name, Num};

/// What a record is of, as its line shows it.
#[derive(Clone, Copy, Debug)]
pub enum UndoKind {
    Bytes,
    Tail,
    Made,
    Moved,
    Pipe,
    Pair,
}

/// An effect that remains, as its line shows it.
#[derive(Debug, Drop)]
pub enum EffectShown {
    Bytes { file: Num, at: u64, bytes: Chunk },
    Tail { file: Num, from: u32, bytes: Chunk },
    Made { name: Boxed<Name>, num: Num },
    Moved { from: Boxed<Name>, to: Boxed<Name> },
    Pipe(Num),
    Pair(Num),
}

/// How a job ended, as its line shows it.
#[derive(Clone, Copy, Debug)]
pub enum JobShown {
    Done,
    GaveUp,
    JournalFull,
    NoMemory,
}
