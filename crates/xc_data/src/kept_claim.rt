ghost use Rattle.std.specs.Prelude.{◌≡◌};
ghost use Rattle.xc_data.specs.Claims.{is_object};

use crate::{Claim, Mode, Num, Object, SharedName};
use std::marker::Model;

// How a claim lies in memory: the mode stands beside the object's kind, where else there would be a gap.
#[derive(Debug, Drop)]
enum ClaimForm {
    Word(Mode, u32),
    Name(Mode, SharedName),
    File(Mode, Num),
    Pipe(Mode, Num),
    Pair(Mode, Num),
    Jobs(Mode),
}

/// A claim that is listed. Contracts see the claim.
#[derive(Debug, Drop)]
pub struct KeptClaim {
    form: ClaimForm,
}

impl Model for KeptClaim {
    ghost use Rattle.xc_data.specs.Claims.{claim_of};
    ghost use Rattle.xc_data.specs.declared.claim.Claim.{Claim};

    ghost Value = { Claim };

    ghost view = { λ a. claim_of a.form };
}

// A claim alone would have 24 bytes.
const _: () = prove!(size_of::<KeptClaim>() == 16);

impl KeptClaim {
    /// A claim, to be listed. It takes no memory.
    #[inline(always)]
    pub fn of(claim: &Claim) -> KeptClaim
        ensures { result ≡ claim.now }
    {
        let form = match &claim.object {
            Object::Word(at) => ClaimForm::Word(claim.mode, *at),
            Object::Name(name) => ClaimForm::Name(claim.mode, name.again()),
            Object::File(num) => ClaimForm::File(claim.mode, *num),
            Object::Pipe(num) => ClaimForm::Pipe(claim.mode, *num),
            Object::Pair(num) => ClaimForm::Pair(claim.mode, *num),
            Object::Jobs => ClaimForm::Jobs(claim.mode),
        };
        KeptClaim { form }
    }

    /// What is claimed. It takes no memory.
    #[inline(always)]
    pub fn object(&self) -> Object
        ensures { result ≡ self.now.object }
    {
        match &self.form {
            ClaimForm::Word(_, at) => Object::Word(*at),
            ClaimForm::Name(_, name) => Object::Name(name.again()),
            ClaimForm::File(_, num) => Object::File(*num),
            ClaimForm::Pipe(_, num) => Object::Pipe(*num),
            ClaimForm::Pair(_, num) => Object::Pair(*num),
            ClaimForm::Jobs(_) => Object::Jobs,
        }
    }

    /// In which mode it is.
    #[inline(always)]
    pub fn mode(&self) -> Mode
        ensures { result ≡ self.now.mode }
    {
        match &self.form {
            ClaimForm::Word(mode, _) | ClaimForm::Name(mode, _) | ClaimForm::File(mode, _) => *mode,
            ClaimForm::Pipe(mode, _) | ClaimForm::Pair(mode, _) | ClaimForm::Jobs(mode) => *mode,
        }
    }

    /// The claim. It takes no memory.
    pub fn claim(&self) -> Claim
        ensures { result ≡ self.now }
    {
        Claim {
            object: self.object(),
            mode: self.mode(),
        }
    }

    /// Whether it is on this object.
    pub fn is_on(&self, object: &Object) -> bool
        ensures { result ≡ is_object object.now self.now.object }
    {
        *object == self.object()
    }

    /// The same claim in another mode. It takes no memory.
    #[inline(always)]
    pub fn with_mode(&self, mode: Mode) -> KeptClaim
        ensures { result ≡ record self.now { mode = mode } }
    {
        let form = match &self.form {
            ClaimForm::Word(_, at) => ClaimForm::Word(mode, *at),
            ClaimForm::Name(_, name) => ClaimForm::Name(mode, name.again()),
            ClaimForm::File(_, num) => ClaimForm::File(mode, *num),
            ClaimForm::Pipe(_, num) => ClaimForm::Pipe(mode, *num),
            ClaimForm::Pair(_, num) => ClaimForm::Pair(mode, *num),
            ClaimForm::Jobs(_) => ClaimForm::Jobs(mode),
        };
        KeptClaim { form }
    }
}
