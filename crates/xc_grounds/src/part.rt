ghost use Rattle.std.specs.Prelude.{◌≡◌};
ghost use Rattle.xc_grounds.specs.Numbered.{part_begin};

use arrayvec::ArrayVec;
use std::marker::Model;
use xc_data::{Cause, Claim, HeldList};

/// What a conflict or a revocation is judged by: a transaction of the journal.
#[derive(Drop)]
pub struct Part {
    pub number: u32,
    pub job: u32,
    /// The number of its first attempt.
    pub rank: u32,
    /// The length that the journal had when it began.
    pub began: u32,
    pub held: HeldList,
    /// What the call claims that it was asked last and that has no reply, where there is one.
    pub wanted: ArrayVec<Claim, 2>,
    /// Why it was aborted, if it was.
    pub cause: Option<Cause>,
}

impl Model for Part {
    ghost use Rattle.xc_model.specs.Grounds.{Part as PlainPart};

    ghost Value = { PlainPart };

    ghost view = { λ a.
        record {
          number = a.number;
          job = a.job;
          rank = a.rank;
          began = a.began;
          held = a.held;
          wanted = a.wanted.items;
          cause = a.cause;
        } };
}

impl Part {
    /// Its number and the length that the journal had when it began.
    pub fn begin(&self) -> (u32, u32)
        ensures { result ≡ part_begin self.now }
    {
        (self.number, self.began)
    }
}
