use xc_judge::Reason;

/// Why a text is false.
#[derive(Clone, Copy, Debug, PartialEq, Eq)]
pub enum CheckWhy {
    /// The text has more than 67,108,864 bytes.
    TooLong,
    /// The script is not one.
    Script,
    /// A line may not come where it does.
    Form,
    /// An entry is false.
    Entry(Reason),
    /// A conflict names no holder, or a revocation no older transaction.
    Grounds,
    /// A line behind the entries is false, or one is missing.
    Tail,
}

/// Whether a text is that of a true end; if it isn't, the first reason, and the line that it is found at. Lines count from 1. An
/// entry's is its first one, and that of the tail the first one behind the entries; it is 0 where the text was not looked at.
/// `Untold` comes of clients' texts alone: memory was wanting in the entry of this line, so that it depends on a call that the text
/// doesn't show. All before it is true, and what is behind it was not looked at.
#[derive(Clone, Copy, Debug, PartialEq, Eq)]
pub enum Verdict {
    Yes,
    No { line: u32, why: CheckWhy },
    Untold { line: u32 },
}
