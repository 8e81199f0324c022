/// How often something is tried.
#[derive(Clone, Copy, Debug, PartialEq, Eq)]
pub struct Rules {
    /// Attempts at one transaction, 1 to 1,000.
    pub attempts: u32,
    /// Busy answers in one attempt, at most 1,000,000.
    pub patience: u32,
    /// Faults of one compensation, 1 to 16.
    pub undo_tries: u32,
}
