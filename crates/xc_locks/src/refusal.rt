use thiserror::Error;
use xc_data::Object;

/// Why a transaction doesn't get one object in a mode.
#[derive(Drop)]
pub enum Refusal {
    /// This is the smallest other holder, and its mode isn't compatible.
    Met(u32),
    NoMemory,
}

impl From<xc_data::NoMemory> for Refusal {
    ghost use Rattle.std.specs.Prelude.{◌≡◌};
    ghost use Rattle.xc_locks.specs.declared.refusal.Refusal.TheVariants.{NoMemory};

    ghost from_gives = { λ _ e. e ≡ NoMemory };

    fn from(_: xc_data::NoMemory) -> Self {
        Refusal::NoMemory
    }
}

/// Why nothing was claimed.
#[derive(Debug, Drop, PartialEq, Eq, Error)]
pub enum ClaimErr {
    /// Another transaction holds the object, and not both modes are Shared.
    #[error("{object:?} is held by t{holder}")]
    Met { object: Object, holder: u32 },
    #[error("no memory")]
    NoMemory,
}

impl From<xc_data::NoMemory> for ClaimErr {
    ghost use Rattle.std.specs.Prelude.{◌≡◌};
    ghost use Rattle.xc_locks.specs.declared.refusal.ClaimErr.TheVariants.{NoMemory};

    ghost from_gives = { λ _ e. e ≡ NoMemory };

    fn from(_: xc_data::NoMemory) -> Self {
        ClaimErr::NoMemory
    }
}
