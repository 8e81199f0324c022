ghost use Rattle.std.specs.Prelude.{◌≡◌, ◌<◌, ◌∷◌, [], List, None, OnOk, OnErr, if◌then◌else◌};
ghost use Rattle.xc_data.specs.declared.object.Object.{Object};
ghost use Rattle.xc_locks.specs.Table.{KeepsOthers, claimed, has, held_mode};
ghost use Rattle.xc_locks.specs.Placing.{IsPlaced, PlacedBehind};

use crate::holders::Holders;
use crate::raising::raise_all;
use crate::reading::mode_held;
use crate::steps::Steps;
use smallvec::SmallVec;
use std::alloc::Global;
use std::sync::ledger::{Blank, Ledger};
use xc_data::{Claim, Mode, NoMemory, Object};

// Puts a claim's object into the table, and after those that were added, where it isn't held yet.
fn place<L: Ledger>(
    holders: &mut Holders,
    added: &mut SmallVec<Object, 2>,
    claim: &Claim,
    tx: u32,
    steps: &mut Steps<L>,
) -> Result<(), NoMemory>
    ensures ok { OnOk result (PlacedBehind tx (claim.now ∷ []) (record { old = holders.old; new = holders.new })
        (record { old = added.old.items; new = added.new.items })) }
    ensures err { OnErr result (holders.new ≡ holders.old) }
    ensures err_added { OnErr result (added.new.items ≡ added.old.items) }
{
    if mode_held(holders, &claim.object, tx, steps).is_some() {
        return Ok(());
    }
    added.reserve(1)?;
    holders.hold(&claim.object, tx, Mode::Shared, steps)?;
    added.push_reserved(claim.object.again());
    Ok(())
}

// The transaction holds none of these objects any longer.
fn take_back<L: Ledger>(holders: &mut Holders, objects: &[Object], tx: u32, steps: &mut Steps<L>)
    ensures own { (o : Object) → held_mode holders.new tx o ≡ (if has objects.now o then None else held_mode holders.old tx o) }
    ensures others { KeepsOthers tx holders.old holders.new }
{
    for object in objects {
        holders.take(object, tx, steps);
    }
}

// Does so for each claim. Where memory runs out, what was added is taken back.
fn place_all<L: Ledger>(
    holders: &mut Holders,
    alloc: Global,
    claims: &[Claim],
    tx: u32,
    steps: &mut Steps<L>,
) -> Result<(), NoMemory>
    ensures ok { OnOk result ((added : List Object) × IsPlaced tx claims.now holders.old holders.new added) }
    ensures err { OnErr result (holders.new ≡ holders.old) }
{
    let mut added = SmallVec::new(alloc);
    for claim in claims {
        if let Err(error) = place(holders, &mut added, claim, tx, steps) {
            take_back(holders, added.as_slice(), tx, steps);
            return Err(error);
        }
    }
    Ok(())
}

/// The transaction holds what it held, and the claimed objects. All memory is taken before a mode changes; for claims of two objects
/// it is the table's alone.
pub fn hold_all<L: Ledger>(
    holders: &mut Holders,
    alloc: Global,
    claims: &[Claim],
    tx: u32,
    blank: Blank,
) -> Result<(), NoMemory>
    requires name { blank.name ≡ L.name }
    requires parts { blank.parts ≡ L.parts }
    requires one { 0 < blank.parts }
    ensures own { OnOk result ((o : Object) → held_mode holders.new tx o ≡ claimed (held_mode holders.old tx o) claims.now o) }
    ensures others { OnOk result (KeepsOthers tx holders.old holders.new) }
    ensures err { OnErr result (holders.new ≡ holders.old) }
{
    let mut steps = Steps::<L>::new(blank);
    place_all(holders, alloc, claims, tx, &mut steps)?;
    raise_all(holders, claims, tx, &mut steps);
    Ok(())
}
