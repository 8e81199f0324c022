use thiserror::Error;
use xc_data::NoMemory;
use xc_tokens::Why;

/// Why a script is not read. Lines are numbered from 1; line 0 is the script as a whole.
#[derive(Debug, Drop, Error)]
pub enum ParseErr {
    #[error("line {line}: refused")]
    Refused { line: u32, why: Why },
    #[error("no memory")]
    NoMemory,
}

impl From<NoMemory> for ParseErr {
    ghost use Rattle.std.specs.Prelude.{◌≡◌};
    ghost use Rattle.xc_text.specs.declared.parse_err.ParseErr.TheVariants.{NoMemory};

    ghost from_gives = { λ _ e. e ≡ NoMemory };

    fn from(_: NoMemory) -> Self {
        ParseErr::NoMemory
    }
}
