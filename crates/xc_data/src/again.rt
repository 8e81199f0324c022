ghost use Rattle.std.specs.Prelude.{◌≡◌};

use crate::{Cause, Event, JobEnd, Mark, Turn};

// A value that holds an object is no `Copy`, since a shared name isn't. Another of the same takes no memory.

impl Cause {
    /// The same cause. It takes no memory.
    pub fn again(&self) -> Self
        ensures { result ≡ self.now }
    {
        match self {
            Cause::Asked => Cause::Asked,
            Cause::Conflict { object, holder, at } => Cause::Conflict {
                object: object.again(),
                holder: *holder,
                at: *at,
            },
            Cause::Revoked { object, by, at } => Cause::Revoked {
                object: object.again(),
                by: *by,
                at: *at,
            },
            Cause::NoMemory => Cause::NoMemory,
            Cause::Stuck { failed } => Cause::Stuck { failed: *failed },
        }
    }
}

impl Mark {
    /// The same mark. It takes no memory.
    pub fn again(&self) -> Self
        ensures { result ≡ self.now }
    {
        Mark {
            object: self.object.again(),
            by: self.by,
            at: self.at,
        }
    }
}

impl JobEnd {
    /// The same end. It takes no memory.
    pub fn again(&self) -> Self
        ensures { result ≡ self.now }
    {
        match self {
            JobEnd::Done => JobEnd::Done,
            JobEnd::GaveUp(cause) => JobEnd::GaveUp(cause.again()),
            JobEnd::JournalFull => JobEnd::JournalFull,
            JobEnd::NoMemory => JobEnd::NoMemory,
        }
    }
}

impl Turn {
    /// The same answer. It takes no memory.
    pub fn again(&self) -> Self
        ensures { result ≡ self.now }
    {
        match self {
            Turn::Went => Turn::Went,
            Turn::Busy { object, holder } => Turn::Busy {
                object: object.again(),
                holder: *holder,
            },
            Turn::NoMemory => Turn::NoMemory,
            Turn::Ended(end) => Turn::Ended(end.again()),
        }
    }
}

impl Event {
    /// The same event. It takes no memory.
    pub fn again(&self) -> Self
        ensures { result ≡ self.now }
    {
        match self {
            Event::Turned { job, answer: None } => Event::Turned {
                job: *job,
                answer: None,
            },
            Event::Turned {
                job,
                answer: Some(answer),
            } => Event::Turned {
                job: *job,
                answer: Some(answer.again()),
            },
            Event::Picked(job) => Event::Picked(*job),
            Event::Looked(length) => Event::Looked(*length),
        }
    }
}
