ghost use Rattle.std.specs.Prelude.{◌≡◌};

use xc_data::{Mark, Object};

/// An active transaction: what others ask of it when they meet what it holds.
#[derive(Drop)]
pub struct Seat {
    /// The number of its first attempt: a smaller one is older.
    pub rank: u32,
    /// It doesn't commit or undo yet.
    pub running: bool,
    /// The first older one that waits for it, while it runs.
    pub mark: Option<Mark>,
}

/// An active transaction with its number.
#[derive(Drop)]
pub struct Slot {
    pub tx: u32,
    pub seat: Seat,
}

/// What becomes of claims.
#[derive(Drop)]
pub enum ClaimVerdict {
    /// All is claimed.
    Granted,
    /// The holder is younger, and the transaction waits for it.
    Busy { object: Object, holder: u32 },
    /// The holder isn't, or there is no patience left.
    Conflict { object: Object, holder: u32 },
    /// No claim is met, but nothing is claimed.
    NoMemory,
}

impl Seat {
    /// The same seat. It takes no memory.
    pub fn again(&self) -> Self
        ensures { result ≡ self.now }
    {
        let mark = match &self.mark {
            Some(mark) => Some(mark.again()),
            None => None,
        };
        Seat {
            rank: self.rank,
            running: self.running,
            mark,
        }
    }
}
