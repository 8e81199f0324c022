ghost use Rattle.std.specs.Prelude.{◌≡◌, [], ◌∷◌, All, IsSome};
ghost use Rattle.xc_data.specs.declared.object.Object.{Object};
ghost use Rattle.xc_data.specs.declared.claim.Claim.{Claim};
ghost use Rattle.xc_locks.specs.Table.{KeepsOthers, claimed, held_mode};

use crate::holders::Holders;
use crate::steps::Steps;
use std::sync::ledger::Ledger;
use xc_data::Claim;

// The transaction holds what it holds already in the stronger of both modes. It takes no memory.
fn raise<L: Ledger>(holders: &mut Holders, claim: &Claim, tx: u32, steps: &mut Steps<L>)
    requires { IsSome (held_mode holders.old tx claim.now.object) }
    ensures own { (o : Object) → held_mode holders.new tx o ≡ claimed (held_mode holders.old tx o) (claim.now ∷ []) o }
    ensures others { KeepsOthers tx holders.old holders.new }
{
    let _ = holders.hold(&claim.object, tx, claim.mode, steps);
}

/// Gives what the transaction holds the modes of these claims. It takes no memory.
pub fn raise_all<L: Ledger>(holders: &mut Holders, claims: &[Claim], tx: u32, steps: &mut Steps<L>)
    requires { All (λ (c : Claim). IsSome (held_mode holders.old tx c.object)) claims.now }
    ensures own { (o : Object) → held_mode holders.new tx o ≡ claimed (held_mode holders.old tx o) claims.now o }
    ensures others { KeepsOthers tx holders.old holders.new }
{
    for claim in claims {
        raise(holders, claim, tx, steps);
    }
}
