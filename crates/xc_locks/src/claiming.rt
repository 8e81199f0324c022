ghost use Rattle.std.specs.Prelude.{◌≡◌, ◌<◌, [], ◌∷◌, IfOk, IfErr, OnOk, OnErr};
ghost use Rattle.xc_data.specs.declared.object.Object.{Object};
ghost use Rattle.xc_locks.specs.Others.{MayHold, IsReason};
ghost use Rattle.xc_locks.specs.Table.{KeepsOthers, claimed, held_mode, modes_of};

use crate::holders::Holders;
use crate::refusal::Refusal;
use crate::steps::Steps;
use std::sync::ledger::{Blank, Ledger};
use xc_data::{Claim, Mode};

/// The transaction holds one object more, or in the stronger of both modes, unless the smallest other holder has a mode that isn't
/// compatible with the claimed one. Gives the mode in which it held the object before. It looks the object up once.
pub fn claim_object<L: Ledger>(
    holders: &mut Holders,
    claim: &Claim,
    tx: u32,
    blank: Blank,
) -> Result<Option<Mode>, Refusal>
    requires name { blank.name ≡ L.name }
    requires parts { blank.parts ≡ L.parts }
    requires one { 0 < blank.parts }
    ensures was { IfOk result (λ was. was ≡ held_mode holders.old tx claim.now.object) }
    ensures free { OnOk result (MayHold (modes_of holders.old claim.now.object) tx claim.now.mode) }
    ensures own { OnOk result ((o : Object) → held_mode holders.new tx o ≡ claimed (held_mode holders.old tx o) (claim.now ∷ []) o) }
    ensures others { OnOk result (KeepsOthers tx holders.old holders.new) }
    ensures err { OnErr result (holders.new ≡ holders.old) }
    ensures reason { IfErr result (IsReason (modes_of holders.old claim.now.object) tx claim.now.mode) }
{
    holders.claim(&claim.object, tx, claim.mode, &mut Steps::<L>::new(blank))
}
