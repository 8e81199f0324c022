use thiserror::Error;
use xc_data::{JobNumbers, NoMemory};
use xc_model::Rules;

/// What the words of a command line chose.
#[derive(Debug, Drop, PartialEq, Eq)]
pub struct Chosen {
    /// Threads that take turns, 1 to 64.
    pub workers: u32,
    /// Whose turns come first, 1 to 10,000 jobs by their numbers.
    pub schedule: Option<JobNumbers>,
    pub rules: Rules,
    /// The seed of a generated script, which is then run in place of the one that is read.
    pub seed: Option<u64>,
}

/// Why the words of a command line are not taken.
#[derive(Clone, Copy, Debug, PartialEq, Eq, Error)]
pub enum SettingsErr {
    #[error("usage")]
    Usage,
    #[error("no memory")]
    NoMemory,
}

impl From<NoMemory> for SettingsErr {
    ghost use Rattle.std.specs.Prelude.{◌≡◌};
    ghost use Rattle.xc_settings.specs.declared.chosen.SettingsErr.TheVariants.{NoMemory};

    ghost from_gives = { λ _ e. e ≡ NoMemory };

    fn from(_: NoMemory) -> Self {
        SettingsErr::NoMemory
    }
}
