ghost use Rattle.std.specs.Prelude.{◌≡◌};
ghost use Rattle.std.specs.List.{list_any};
ghost use Rattle.xc_data.specs.Remaining.{leaves};

use crate::{
    Call, Chunk, Ident, Items, KeptClaim, LateEnd, Num, Object, RecordList, Reply, Undo, UndoEnd,
};

/// The calls of a transaction, in the order in which they were made.
pub type CallList = Items<Call>;

/// The replies to the calls of a transaction, one for each.
pub type ReplyList = Items<Reply>;
/// Objects in the order in which they were first touched, each with the mode in which it is held.
pub type HeldList = Items<KeptClaim>;
/// The ends of the late calls, in the order of the calls.
pub type LateList = Items<LateEnd>;
/// Job lines in the order of the jobs' numbers.
pub type JobList = Items<JobLine>;

/// Bytes and messages that the runtime keeps in front of the host's, in the order in which they come out.
pub type KeptList = Items<KeptItem>;

/// Jobs by their numbers, which count from 1.
pub type JobNumbers = Items<u32>;
/// Bytes to be written out.
pub type Text = Items<u8>;

/// Why a transaction was aborted. `at` is the length that the journal had then.
#[derive(Debug, Drop, PartialEq)]
pub enum Cause {
    /// The script said so.
    Asked,
    /// The transaction `holder` held an object that the next call touches.
    Conflict {
        object: Object,
        holder: u32,
        at: u32,
    },
    /// The older transaction `by` wanted an object that was held.
    Revoked {
        object: Object,
        by: u32,
        at: u32,
    },
    NoMemory,
    /// On the way back of an inner block the compensation of this record failed.
    Stuck {
        failed: u32,
    },
}

/// That a running transaction is to be revoked: an older one waits for what it holds.
#[derive(Drop)]
pub struct Mark {
    pub object: Object,
    /// The number of the older one.
    pub by: u32,
    /// How long the journal was when that one met it.
    pub at: u32,
}

/// Why a transaction was aborted, and how each of its compensations ended.
#[derive(Debug, Drop)]
pub struct Report {
    pub cause: Cause,
    pub records: RecordList,
}

impl Report {
    /// Whether an effect of the transaction stands: a compensation failed before all was restored,
    /// or was blocked. It takes no memory.
    pub fn remains(&self) -> bool
        ensures { result ≡ list_any leaves self.now.records }
    {
        self.records
            .as_slice()
            .iter()
            .any(|record| is_left(&record.0, &record.1))
    }
}

// Whether a record with this end leaves an effect.
fn is_left(undo: &Undo, end: &UndoEnd) -> bool
    ensures { result ≡ leaves (undo.now, end.now) }
{
    match end {
        UndoEnd::Undone { .. } => false,
        UndoEnd::Blocked { .. } => true,
        UndoEnd::Failed { done, .. } => match undo {
            Undo::Overwrite { n, .. } => done < n,
            Undo::Append { .. } | Undo::Create { .. } | Undo::Rename { .. } => true,
            Undo::NewPipe(_) | Undo::NewPair(_) => true,
        },
    }
}

/// How a transaction ended.
#[derive(Debug, Drop)]
pub enum Outcome {
    Committed { late: LateList },
    Aborted(Report),
}

/// What the journal has of a transaction that ended.
#[derive(Debug, Drop)]
pub struct Entry {
    pub tx: u32,
    pub job: u32,
    /// The number of the transaction's first attempt.
    pub rank: u32,
    /// The length that the journal had at its begin.
    pub began: u32,
    pub calls: CallList,
    pub replies: ReplyList,
    pub held: HeldList,
    pub outcome: Outcome,
}

/// How a job ended.
#[derive(Debug, Drop)]
pub enum JobEnd {
    Done,
    /// After as many attempts at one transaction as are allowed, with the last one's cause.
    GaveUp(Cause),
    JournalFull,
    NoMemory,
}

/// What a turn of a job answers.
#[derive(Drop)]
pub enum Turn {
    Went,
    /// The job waits for this object's holder.
    Busy { object: Object, holder: u32 },
    NoMemory,
    Ended(JobEnd),
}

/// One event of the station.
#[derive(Drop)]
pub enum Event {
    /// A turn; no answer where the job wasn't live.
    Turned { job: u32, answer: Option<Turn> },
    /// A job was taken by a worker; none where all are.
    Picked(Option<u32>),
    /// The journal's length was read.
    Looked(u32),
}

/// A job's block and end.
#[derive(Debug, Drop)]
pub struct JobLine {
    pub block: Ident,
    pub end: JobEnd,
}

/// What was taken out of a pipe or a pair: the first bytes, or the first message for a side. What aborted
/// transactions took is kept for the readers after them.
#[derive(Drop)]
pub enum KeptItem {
    Bytes { pipe: Num, bytes: Chunk },
    /// A message for this side.
    Message { pair: Num, side: u8, bytes: Chunk },
}
