use std::alloc::{AllocError, AllocFailed};
use thiserror::Error;

/// The host failed. It doesn't say why, and nothing was changed.
#[derive(Clone, Copy, Debug, PartialEq, Error)]
#[error("the host failed")]
pub struct Fault;

/// Why a call of the host did nothing.
#[derive(Clone, Copy, Debug, PartialEq, Error)]
pub enum HostErr {
    #[error("the host failed")]
    Fault,
    #[error("no memory")]
    NoMemory,
}

/// Why a host isn't opened with a prologue.
#[derive(Clone, Copy, Debug, Error)]
pub enum OpenErr {
    /// It takes no script, and the prologue has a line for a host that does.
    #[error("not scripted")]
    NotScripted,
    #[error("no memory")]
    NoMemory,
}

impl From<AllocError> for HostErr {
    ghost use Rattle.std.specs.Prelude.{◌≡◌};
    ghost use Rattle.xc_host.specs.declared.errors.HostErr.TheVariants.{NoMemory};

    ghost from_gives = { λ _ e. e ≡ NoMemory };

    fn from(_: AllocError) -> Self {
        HostErr::NoMemory
    }
}

impl<T: Drop> From<AllocFailed<T>> for HostErr {
    ghost use Rattle.std.specs.Prelude.{◌≡◌};
    ghost use Rattle.xc_host.specs.declared.errors.HostErr.TheVariants.{NoMemory};

    ghost from_gives = { λ _ e. e ≡ NoMemory };

    fn from(_: AllocFailed<T>) -> Self {
        HostErr::NoMemory
    }
}

impl From<xc_data::NoMemory> for HostErr {
    ghost use Rattle.std.specs.Prelude.{◌≡◌};
    ghost use Rattle.xc_host.specs.declared.errors.HostErr.TheVariants.{NoMemory};

    ghost from_gives = { λ _ e. e ≡ NoMemory };

    fn from(_: xc_data::NoMemory) -> Self {
        HostErr::NoMemory
    }
}

impl From<xc_data::NoMemory> for OpenErr {
    ghost use Rattle.std.specs.Prelude.{◌≡◌};
    ghost use Rattle.xc_host.specs.declared.errors.OpenErr.TheVariants.{NoMemory};

    ghost from_gives = { λ _ e. e ≡ NoMemory };

    fn from(_: xc_data::NoMemory) -> Self {
        OpenErr::NoMemory
    }
}
