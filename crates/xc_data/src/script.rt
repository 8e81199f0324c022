use crate::{Chunk, Ident, Items, Name};

/// Numbers of host calls.
pub type CallNumbers = Items<u64>;
/// The values of the words, in order.
pub type WordList = Items<u64>;

/// Identifiers, in the order of the script.
pub type IdentList = Items<Ident>;
/// Objects in the order of their lines.
pub type OpenedList = Items<Opened>;

/// The `fault` lines, in the order of the script.
pub type FaultList = Items<FaultLine>;

/// The kinds of host calls. `Any` counts them all.
#[derive(Clone, Copy, Debug, PartialEq)]
pub enum HostCallKind {
    Lookup,
    Create,
    Len,
    ReadAt,
    WriteAt,
    Append,
    Rename,
    Unlink,
    Sync,
    NewPipe,
    PipeState,
    Take,
    Put,
    NewPair,
    PairState,
    Recv,
    Send,
    Shut,
    Restore,
    Cut,
    Uncreate,
    NameBack,
    DropPipe,
    DropPair,
    Any,
}

/// An object that is there at the opening.
#[derive(Debug, Drop)]
pub enum Opened {
    File { name: Name, bytes: Chunk },
    Pipe { bytes: Chunk },
    Pair,
}

/// The calls of a kind that fail: from the `first` to the `last` of them, counted from 1.
#[derive(Clone, Copy, Debug)]
pub struct FaultLine {
    pub kind: HostCallKind,
    pub first: u64,
    pub last: u64,
}

/// What a host holds at the opening, and which of its calls fail.
#[derive(Debug, Drop)]
pub struct Prologue {
    pub objects: OpenedList,
    pub faults: FaultList,
    /// The most bytes of one read or write, 1 to 65,536; none where there is no such bound.
    pub grain: Option<u32>,
}

/// A script without its statements: what the plain machine starts from.
#[derive(Debug, Drop)]
pub struct Outline {
    pub words: WordList,
    pub prologue: Prologue,
    /// The names of the `body` blocks, which only a started thread runs.
    pub bodies: IdentList,
    /// The names of the `job` blocks, which are started at the opening.
    pub jobs: IdentList,
}
