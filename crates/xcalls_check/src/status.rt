ghost use Rattle.std.specs.Prelude.{◌≡◌};
ghost use Rattle.xcalls_check.specs.Answers.{check_status_number};

/// How the program ended.
#[derive(Clone, Copy, Debug, PartialEq, Eq)]
pub enum CheckStatus {
    /// The journal is true.
    Yes,
    /// It is false, or the input is too long.
    No,
    /// The words of the command line are refused.
    Usage,
    ReadFault,
    WriteFault,
    NoMemory,
    /// Of clients' journal nothing can be said from some entry on.
    Untold,
}

impl CheckStatus {
    /// The exit status.
    pub fn number(self) -> u8
        ensures { result ≡ check_status_number self }
    {
        match self {
            CheckStatus::Yes => 0,
            CheckStatus::No => 1,
            CheckStatus::Usage => 2,
            CheckStatus::ReadFault => 3,
            CheckStatus::WriteFault => 4,
            CheckStatus::NoMemory => 5,
            CheckStatus::Untold => 6,
        }
    }
}
