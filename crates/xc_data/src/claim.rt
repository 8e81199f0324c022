ghost use Rattle.std.specs.Prelude.{◌≡◌};
ghost use Rattle.xc_data.specs.Claims.{compatible, stronger, merged};

use crate::Object;

/// How an object is held. Several transactions may hold one object Shared; who holds it Exclusive holds it
/// alone.
#[derive(Clone, Copy, Debug, Default, PartialEq)]
pub enum Mode {
    #[default]
    Shared,
    Exclusive,
}

impl Mode {
    /// Whether two transactions may hold one object, one in each mode.
    pub fn is_compatible(self, other: Mode) -> bool
        ensures { result ≡ compatible self other }
    {
        matches!((self, other), (Mode::Shared, Mode::Shared))
    }

    /// Exclusive where one of the two is.
    pub fn stronger(self, other: Mode) -> Mode
        ensures { result ≡ stronger self other }
    {
        match self {
            Mode::Exclusive => Mode::Exclusive,
            Mode::Shared => other,
        }
    }
}

/// An object with the mode in which it is touched or held.
#[derive(Debug, Default, Drop, PartialEq)]
pub struct Claim {
    pub object: Object,
    pub mode: Mode,
}

impl Claim {
    /// The same claim. It takes no memory.
    pub fn again(&self) -> Self
        ensures { result ≡ self.now }
    {
        Claim {
            object: self.object.again(),
            mode: self.mode,
        }
    }

    /// This claim after a new one: of the same object it has the stronger mode of both, else it stays.
    pub fn merged(self, new: &Claim) -> Claim
        ensures { result ≡ merged new.now self }
    {
        if new.object != self.object {
            return self;
        }
        Claim {
            object: self.object,
            mode: self.mode.stronger(new.mode),
        }
    }
}
