use xc_check::Verdict;

/// What is to be said.
#[derive(Clone, Copy, Debug)]
pub enum CheckAnswer {
    Judged(Verdict),
    /// The words of the command line are refused.
    Usage,
    ReadFault,
    NoMemory,
}
