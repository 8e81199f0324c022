use std::alloc::AllocFailed;
use xc_data::NoMemory;

/// Why a line is refused. Of several reasons the first one here decides.
#[derive(Clone, Copy, Debug, PartialEq, Eq)]
pub enum Why {
    /// The script has more than 1,048,576 bytes.
    TooLong,
    /// A byte that no line may have.
    BadByte,
    /// A literal that isn't one, or a quote within a word.
    BadLiteral,
    /// The first token is no line of this section.
    UnknownLine,
    /// Wrong number or kind of tokens.
    BadForm,
    /// A number that isn't one, or that is out of its range.
    BadNumber,
    /// A name that breaks its limit.
    BadName,
    /// A line that may come once comes again.
    Twice,
    /// The line passes a limit.
    TooMany,
    /// The script ends within a block.
    Unclosed,
}

/// What ends the reading of a line.
#[derive(Debug, Drop)]
pub enum Stop {
    Refused(Why),
    NoMemory,
}

impl From<Why> for Stop {
    ghost use Rattle.std.specs.Prelude.{◌≡◌};
    ghost use Rattle.xc_tokens.specs.declared.why.Stop.TheVariants.{Refused};

    ghost from_gives = { λ why e. e ≡ Refused why };

    fn from(why: Why) -> Self {
        Stop::Refused(why)
    }
}

impl<T: Drop> From<AllocFailed<T>> for Stop {
    ghost use Rattle.std.specs.Prelude.{◌≡◌};
    ghost use Rattle.xc_tokens.specs.declared.why.Stop.TheVariants.{NoMemory};

    ghost from_gives = { λ _ e. e ≡ NoMemory };

    fn from(_: AllocFailed<T>) -> Self {
        Stop::NoMemory
    }
}

impl From<NoMemory> for Stop {
    ghost use Rattle.std.specs.Prelude.{◌≡◌};
    ghost use Rattle.xc_tokens.specs.declared.why.Stop.TheVariants.{NoMemory};

    ghost from_gives = { λ _ e. e ≡ NoMemory };

    fn from(_: NoMemory) -> Self {
        Stop::NoMemory
    }
}
