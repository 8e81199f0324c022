/// A transaction moves an amount from a word to a word.
#[derive(Clone, Copy)]
pub struct Transfer {
    /// The index of the word that gives, below 64.
    pub from: u64,
    /// The index of the word that takes, below 64: it may be the same word.
    pub to: u64,
    /// From 1 to 10.
    pub amount: u64,
}
