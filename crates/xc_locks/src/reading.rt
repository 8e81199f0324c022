ghost use Rattle.std.specs.Prelude.{◌≡◌, ◌<◌, MatchOption};
ghost use Rattle.xc_locks.specs.Table.{held_mode, modes_of};
ghost use Rattle.xc_locks.specs.Others.{MayHold, IsMetBy};

use crate::holders::Holders;
use crate::steps::Steps;
use std::sync::ledger::{Blank, Ledger};
use xc_data::{Claim, Mode, Object};

/// In which mode a transaction holds an object.
pub fn mode_held<L: Ledger>(
    holders: &Holders,
    object: &Object,
    tx: u32,
    steps: &mut Steps<L>,
) -> Option<Mode>
    ensures { result ≡ held_mode holders.now tx object.now }
{
    holders.look(object, steps)?.get(tx)
}

/// The smallest other holder of a claimed object, if its mode isn't compatible with the claimed one.
pub fn met_by<L: Ledger>(holders: &Holders, claim: &Claim, tx: u32, blank: Blank) -> Option<u32>
    requires name { blank.name ≡ L.name }
    requires parts { blank.parts ≡ L.parts }
    requires one { 0 < blank.parts }
    ensures { MatchOption result (MayHold (modes_of holders.now claim.now.object) tx claim.now.mode)
        (IsMetBy (modes_of holders.now claim.now.object) tx claim.now.mode) }
{
    let mut steps = Steps::<L>::new(blank);
    holders
        .look(&claim.object, &mut steps)?
        .met_by(tx, claim.mode)
}
