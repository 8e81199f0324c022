ghost use Rattle.std.specs.Prelude.{◌≡◌, ◌+◌, None, length, if◌then◌else◌};
ghost use Rattle.xc_data.specs.Claims.{objects};
ghost use Rattle.xc_data.specs.declared.object.Object.{Object};
ghost use Rattle.xc_locks.specs.Released.{claims_on, each_once};
ghost use Rattle.xc_locks.specs.Table.{KeepsOthers, has, held_mode};

use crate::holders::Holders;
use crate::steps::Steps;
use std::sync::ledger::Ledger;
use xc_data::KeptClaim;

/// Takes out of the table what the claims are on. Leaves each object once, at its first claim, in the mode in which it was held.
/// A step for each claim. It takes no memory.
pub fn take_all<L: Ledger>(
    holders: &mut Holders,
    claims: &mut Vec<KeptClaim>,
    tx: u32,
    steps: &mut Steps<L>,
)
    ensures own { (o : Object)
        → held_mode holders.new tx o ≡ (if has (objects claims.old.items) o then None else held_mode holders.old tx o) }
    ensures others { KeepsOthers tx holders.old holders.new }
    ensures taken { claims.new.items ≡ claims_on (held_mode holders.old tx) (each_once (objects claims.old.items)) }
    ensures cost { steps.new ≡ steps.old + length claims.old.items }
{
    let mut count = 0;
    for at in 0..claims.len() {
        let claim = &claims[at];
        if let Some(mode) = holders.take(&claim.object(), tx, steps) {
            let held = claim.with_mode(mode);
            claims[count] = held;
            count += 1;
        }
    }
    claims.truncate(count);
}
