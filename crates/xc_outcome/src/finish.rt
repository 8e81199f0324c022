ghost use Rattle.std.specs.Prelude.{◌≡◌};
ghost use Rattle.xc_outcome.specs.Status.{status_number};

use xc_station::End;
use xc_text::Why;

/// The most bytes that are read: one more than a script may have.
pub const LIMIT: usize = 1_048_577;

/// How a run ended.
#[derive(Clone, Copy, Debug, PartialEq, Eq)]
pub enum Status {
    Done,
    /// The bytes read are no script: the first bad line, 0 for the whole, and its first reason.
    Refused { line: u32, why: Why },
    /// The words of the command line are refused.
    Usage,
    /// A read failed.
    ReadFault,
    /// A write failed.
    WriteFault,
    /// Memory ran out: in the run, in one of its jobs, or for a late call.
    NoMemory,
    /// An effect of an aborted transaction remains: its compensation failed, or was blocked.
    Left,
    /// A job gave up after as many attempts at one transaction as are allowed, or found the journal full.
    GaveUp,
    /// The host takes no scripts, and the script has a line for one that does.
    NotScripted,
}

impl Status {
    /// The exit status of the program.
    pub fn number(self) -> u8
        ensures { result ≡ status_number self }
    {
        match self {
            Status::Done => 0,
            Status::Refused { .. } => 1,
            Status::Usage => 2,
            Status::ReadFault => 3,
            Status::WriteFault => 4,
            Status::NoMemory => 5,
            Status::Left => 6,
            Status::GaveUp => 7,
            Status::NotScripted => 8,
        }
    }
}

/// What a run leaves: its end once the script was started, and else the host as it was.
#[derive(Drop)]
pub struct Finish<H> {
    pub status: Status,
    pub end: Option<End<H>>,
    pub host: Option<H>,
}
