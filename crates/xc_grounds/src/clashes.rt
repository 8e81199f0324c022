ghost use Rattle.std.specs.Bool.{Decides};
ghost use Rattle.std.specs.Prelude.{◌++◌, Contains, IsTrue};
ghost use Rattle.xc_data.specs.Claims.{Clash, claim};
ghost use Rattle.xc_grounds.specs.Groundless.{ClashesIn, ClashesOver};
ghost use Rattle.xc_model.specs.Grounds.{Clashes};

use xc_data::{Claim, KeptClaim, Mode, Object};

// Two transactions can't hold these together.
fn is_clash(wanted: &Claim, held: &Claim) -> bool
    ensures { Decides result (Clash wanted.now held.now) }
{
    held.object == wanted.object && !wanted.mode.is_compatible(held.mode)
}

// One of the wanted claims clashes with a held one.
fn clashes(wanted: &[Claim], held: &Claim) -> bool
    ensures { Decides result (Clashes wanted.now held.now) }
{
    wanted.iter().any(|claim| is_clash(claim, held))
}

// One of the listed claims clashes with a held one.
fn kept_clashes(claims: &[KeptClaim], held: &Claim) -> bool
    ensures { Decides result (Clashes claims.now held.now) }
{
    claims.iter().any(|kept| is_clash(&kept.claim(), held))
}

// This claim is among those that are held.
fn is_held(held: &[KeptClaim], claim: &Claim) -> bool
    ensures { Decides result (Contains held.now claim.now) }
{
    held.iter().any(|kept| kept.claim() == *claim)
}

// One of either does.
fn any_clashes(listed: &[KeptClaim], wanted: &[Claim], held: &Claim) -> bool
    ensures { Decides result (Clashes (listed.now ++ wanted.now) held.now) }
{
    kept_clashes(listed, held) || clashes(wanted, held)
}

// One of either does, where they are known.
fn may_clash(known: bool, listed: &[KeptClaim], wanted: &[Claim], held: &Claim) -> bool
    ensures { Decides result (IsTrue known → Clashes (listed.now ++ wanted.now) held.now) }
{
    !known || any_clashes(listed, wanted, held)
}

// The object is held in this mode, and one of the other claims, listed or wanted, clashes with that where they are known.
fn clashes_in(
    known: bool,
    held: &[KeptClaim],
    listed: &[KeptClaim],
    wanted: &[Claim],
    object: &Object,
    mode: Mode,
) -> bool
    ensures { Decides result (ClashesIn known held.now (listed.now ++ wanted.now) (claim mode object.now)) }
{
    let claim = Claim {
        object: object.again(),
        mode,
    };
    is_held(held, &claim) && may_clash(known, listed, wanted, &claim)
}

/// The object is held, and one of the other claims, listed or wanted, clashes with that where they are known.
pub(crate) fn clashes_over(
    known: bool,
    held: &[KeptClaim],
    listed: &[KeptClaim],
    wanted: &[Claim],
    object: &Object,
) -> bool
    ensures { Decides result (ClashesOver known held.now (listed.now ++ wanted.now) object.now) }
{
    clashes_in(known, held, listed, wanted, object, Mode::Shared)
        || clashes_in(known, held, listed, wanted, object, Mode::Exclusive)
}
