ghost use Rattle.std.specs.Prelude.{◌≡◌};

use xc_data::Cause;

/// What an active transaction does. docs/ARCHITECTURE.md ("The station") has what is true in each phase, and how it is left.
#[derive(Drop)]
pub enum Phase {
    /// Its stores wait, and its job's place is behind its replies.
    Running,
    /// Its stores are written, and its late calls are done, the oldest first.
    Committing,
    /// Its stores are never written, and its records are undone, the newest first.
    Undoing(Cause),
    /// A block goes back: its records are undone, the newest first.
    Backing,
}

/// Attempts at a job's next transaction that met a holder or were revoked.
#[derive(Drop)]
pub struct Attempts {
    /// The number of the first one, which is the transaction's rank.
    pub first: u32,
    /// How many there were, at least one.
    pub failed: u32,
    /// Why the last one ended.
    pub last: Cause,
}

impl Phase {
    /// The same phase. It takes no memory.
    pub fn again(&self) -> Self
        ensures { result ≡ self.now }
    {
        match self {
            Phase::Running => Phase::Running,
            Phase::Committing => Phase::Committing,
            Phase::Undoing(cause) => Phase::Undoing(cause.again()),
            Phase::Backing => Phase::Backing,
        }
    }
}
