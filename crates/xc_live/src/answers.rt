use xc_data::{Cause, JobEnd};

/// What a begin comes to.
#[derive(Debug, Drop)]
pub enum Began {
    /// A transaction has begun.
    Went,
    /// The transaction that ended this client's last attempt is still active: begin again when it has ended. It has this number.
    Waits { holder: u32 },
    /// No transaction begins any more: the client has ended so.
    Ended(JobEnd),
    /// There is no memory for a transaction now, and nothing changes: begin again later.
    NoMemory,
    /// As many entries wait to be handed out as may, and nothing changes: begin again when they are handed out.
    Full,
}

/// What a call comes to.
#[derive(Debug, Drop)]
pub enum Called {
    /// It is done, or kept for the commit. `Desk::reply` lends its reply.
    Replied,
    /// The transaction was rolled back, and its entry is the journal's last: begin again. The client hasn't ended, whatever the cause.
    Again(Cause),
    /// It isn't made, and nothing changes: a save within a block, a keep or a back outside of one, or the start of a job.
    Refused,
    /// There is no transaction, and nothing changes: an older one took what it held, or none has begun.
    Gone,
}

/// What a commit or an abort comes to. The entry is at this place of the journal, which counts from 0.
#[derive(Debug, Drop)]
pub enum Ended {
    Committed { entry: u32 },
    Aborted { entry: u32, cause: Cause },
    /// There is no transaction, and nothing changes: an older one took what it held, or none has begun.
    Gone,
}
