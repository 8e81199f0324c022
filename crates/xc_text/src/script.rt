ghost use Rattle.std.specs.Prelude.{◌≡◌, true};
ghost use Rattle.xc_text.specs.Scripts.{IsScript};

use crate::kept::KeptStatement;
use crate::packed::PackedU64;
use xc_data::{Boxed, Chunk, Ident, IdentList, Items, Outline, SharedName, SlotNames};

/// A number, the number in a variable, or one that tells how the last late call with a slot ended. Here and below a
/// variable and a slot stand as an `N`.
#[derive(Clone, Copy, Drop)]
pub enum Term<N> {
    Number(PackedU64),
    Variable(N),
    Slot(N),
}

/// A term, a sum or a difference of two, taken modulo 2^64.
#[derive(Clone, Copy, Drop)]
pub enum Expression<N> {
    Term(Term<N>),
    Sum(Term<N>, Term<N>),
    Difference(Term<N>, Term<N>),
}

/// How two numbers are compared, the first one with the second.
#[derive(Clone, Copy)]
pub enum Test {
    Equal,
    NotEqual,
    Less,
    AtMost,
    Greater,
    AtLeast,
}

/// A part of the bytes that a call writes.
#[derive(Drop)]
pub enum Item<N> {
    /// A literal with its repeat.
    Literal(Chunk),
    /// The bytes in a variable.
    Bytes(N),
    /// A term's value in decimal digits.
    Digits(Term<N>),
}

/// The parts of the bytes that a call writes, 1 to 16 of them, in order.
pub type Data<N> = Items<Item<N>>;

/// A line that is a call. A variable takes what it replies where one is named.
#[derive(Drop)]
pub enum CallForm<N> {
    Load {
        at: Term<N>,
        into: Option<N>,
    },
    Store {
        at: Term<N>,
        value: Expression<N>,
    },
    XOpen {
        name: SharedName,
        into: Option<N>,
    },
    /// Makes an empty file.
    XCreate {
        name: SharedName,
        into: Option<N>,
    },
    XRename {
        from: SharedName,
        to: SharedName,
    },
    /// Reads up to n bytes through the handle in a variable.
    XRead {
        handle: N,
        n: Term<N>,
        into: Option<N>,
    },
    /// Writes over a file's bytes through the handle in a variable.
    XWriteOvr {
        handle: N,
        data: Data<N>,
    },
    /// Writes after a file's bytes through the handle in a variable.
    XWriteSeq {
        handle: N,
        data: Data<N>,
    },
    /// Sets the position of the handle in a variable.
    XSeek {
        handle: N,
        to: Term<N>,
    },
    /// Asks for the length of the file whose handle is in a variable.
    XLen {
        handle: N,
        into: Option<N>,
    },
    /// Gives up the handle in a variable.
    XClose {
        handle: N,
    },
    /// Takes a file's name away at the commit. A slot takes the end where one is named.
    XUnlink {
        name: SharedName,
        slot: Option<N>,
    },
    /// Keeps for good, at the commit, what was written to the file whose handle is in a variable.
    XSync {
        handle: N,
        slot: Option<N>,
    },
    /// Makes an empty pipe.
    XPipe {
        into: Option<N>,
    },
    /// Takes up to n bytes from the front of the pipe whose handle is in a variable.
    XReadPipe {
        handle: N,
        n: Term<N>,
        into: Option<N>,
    },
    /// Puts bytes after those of the pipe whose handle is in a variable, at the commit.
    XWritePipe {
        handle: N,
        data: Data<N>,
        slot: Option<N>,
    },
    /// Shuts the pipe whose handle is in a variable, at the commit: it takes no bytes any more.
    XShutdown {
        handle: N,
        slot: Option<N>,
    },
    /// Makes a socket pair. Two variables take the handles of its sides where they are named.
    XPair {
        into: Option<(N, N)>,
    },
    /// Takes the first message of the side whose handle is in a variable.
    XRecvmsg {
        handle: N,
        into: Option<N>,
    },
    /// Sends bytes as one message from the side whose handle is in a variable, at the commit.
    XSendmsg {
        handle: N,
        data: Data<N>,
        slot: Option<N>,
    },
    /// Starts a job at the start of a block, at the commit. No block needs to have the name.
    XThreadCreate {
        block: Boxed<Ident>,
        slot: Option<N>,
    },
    /// Opens an inner block.
    Save,
    /// Closes the inner block.
    Keep,
    /// Goes back to the inner block's start, and on behind its end.
    Back,
}

/// A line of a transaction between its `tx` and its `commit`.
#[derive(Drop)]
pub enum Statement<N> {
    Call(CallForm<N>),
    /// A variable takes a number.
    Let {
        into: N,
        value: Expression<N>,
    },
    /// The transaction aborts itself.
    Abort,
    /// It aborts itself where the test holds.
    AbortIf {
        left: Term<N>,
        test: Test,
        right: Term<N>,
    },
    /// It aborts itself where its last call was refused.
    Require,
    /// It goes back to the inner block's start, and on behind its end, where the test holds.
    BackIf {
        left: Term<N>,
        test: Test,
        right: Term<N>,
    },
}

/// The place of a variable or of a slot among the names of a script.
pub type NameIndex = u16;

/// The statements of one transaction, in order.
pub type Body = Items<KeptStatement>;

/// A `job` or a `body` block and its transactions, in order.
#[derive(Drop)]
pub struct Block {
    pub name: Ident,
    pub transactions: Items<Body>,
}

/// A whole script.
#[derive(Drop)]
pub struct Script {
    pub outline: Outline,
    /// The blocks in the order of the script.
    pub blocks: Items<Block>,
    /// The names of its variables, each once, in the order in which they come first.
    pub variables: IdentList,
    /// The names of its slots, likewise.
    pub slots: SlotNames,
    /// The variables that each job has the prologue's handles in, by the numbers of the handles.
    pub handles: Items<NameIndex>,
    /// Whether clients ask its transactions, call by call. Of a script that is read it is false.
    pub clients: bool,
}

impl Script {
    /// The script without its statements.
    pub fn outline(&self) -> &Outline
        ensures { result.now ≡ self.now.outline }
    {
        &self.outline
    }

    /// The script of clients: they ask its transactions, call by call. Its blocks say nothing then.
    pub fn for_clients(self) -> Script
        ensures clients { result ≡ record self { clients = true } }
        ensures script { IsScript self → IsScript result }
    {
        let mut script = self;
        script.clients = true;
        script
    }
}
