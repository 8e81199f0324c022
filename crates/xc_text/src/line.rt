ghost use Rattle.std.specs.Prelude.{◌≡◌};
ghost use Rattle.xc_text.specs.Sections.{block_in, is_outside, transaction_in};

use crate::script::Statement;
use xc_data::{Chunk, HostCallKind, Ident, Name};
use xc_tokens::IdentWord;

/// Where in a script a line stands.
#[derive(Clone, Copy)]
pub enum Section {
    /// Before the first block.
    Prologue,
    /// After a block.
    Between,
    /// In the block of that name.
    Block(Ident),
    /// In a transaction of the block of that name.
    Transaction(Ident),
}

impl Section {
    /// The name of the block, outside of its transactions.
    pub fn block(&self) -> Option<Ident>
        ensures { result ≡ block_in self.now }
    {
        match self {
            Section::Block(name) => Some(*name),
            _ => None,
        }
    }

    /// It is outside of all blocks.
    pub fn is_outside(&self) -> bool
        ensures { result ≡ is_outside self.now }
    {
        matches!(self, Section::Prologue | Section::Between)
    }

    /// The name of the block of the transaction.
    pub fn transaction(&self) -> Option<Ident>
        ensures { result ≡ transaction_in self.now }
    {
        match self {
            Section::Transaction(name) => Some(*name),
            _ => None,
        }
    }
}

/// What a line says. A line of a transaction is read by the draft itself, and stands here for the grammar.
#[derive(Drop)]
pub enum ScriptLine<'a> {
    /// The number of words.
    Words(u64),
    /// A word opens with a value.
    Word {
        at: u64,
        value: u64,
    },
    /// A file opens with its bytes; none where they are too many.
    File {
        name: Name,
        bytes: Option<Chunk>,
    },
    /// A pipe opens with its bytes, none where they are too many, and each job has its handle in a variable.
    Pipe {
        handle: IdentWord<'a>,
        bytes: Option<Chunk>,
    },
    /// A socket pair opens, and each job has the handles of its sides in two variables, side 0 in the first one.
    Pair {
        first: IdentWord<'a>,
        second: IdentWord<'a>,
    },
    /// The calls of a kind from the `first` to the `last` fail.
    Fault {
        kind: HostCallKind,
        first: u64,
        last: u64,
    },
    /// The most bytes of one read or write.
    Grain(u64),
    /// A `job` block begins.
    Job(Ident),
    /// A `body` block begins.
    Body(Ident),
    /// A transaction begins.
    Begin,
    Statement(Statement<IdentWord<'a>>),
    /// The transaction ends.
    Commit,
    /// The block ends.
    End,
}
