use crate::{Progress, Reason};
use arrayvec::ArrayVec;
use xc_data::{Claim, Entry};

/// An entry that was judged true, where it led, and what the call claims that was asked last.
#[derive(Drop)]
pub struct Stepped {
    /// After the entry.
    pub progress: Progress,
    /// One that is shown so, with records that are true; others may show alike.
    pub entry: Entry,
    /// Nothing where no call was asked.
    pub wanted: ArrayVec<Claim, 2>,
}

/// What became of an entry.
#[derive(Drop)]
pub enum Step {
    /// It is true.
    Entered(Stepped),
    /// It is false, for this reason first.
    Refused(Reason),
}
