ghost use Rattle.std.specs.Prelude.{◌≡◌, ◌<◌, ◌^◌, length};
ghost use Rattle.xc_locks.specs.Table.{Holds, KeepsOthers};

use std::marker::Brand;
use std::sync::ledger::{Blank, Ledger};
use std::test::Fail;
use xc_data::{Claim, HeldList, Mode, NoMemory, Object};
use xc_locks::{Holding, Steps};
use xc_sentinel::{ClaimVerdict, Sentinels};

fn word(at: u32) -> [Claim; 1] {
    [Claim {
        object: Object::Word(at),
        mode: Mode::Exclusive,
    }]
}

// A transaction claims, with room in the list of what it holds.
fn ask(
    sentinels: &mut Sentinels,
    claims: &[Claim],
    tx: u32,
    held: &mut Holding,
    patient: bool,
) -> Result<ClaimVerdict, NoMemory>
    requires holds { Holds sentinels.old.claims tx held.old.items }
    requires few { length claims.now < 2 ^ 32 }
    ensures holds { Holds sentinels.new.claims tx held.new.items }
    ensures others { KeepsOthers tx sentinels.old.claims sentinels.new.claims }
{
    held.make_room(claims.len() as u32)?;
    Ok(sentinels.ask(claims, tx, held, patient, 0))
}

#[test]
fn an_older_one_waits_and_the_younger_is_marked(rt: HostRuntime) -> Result<(), Fail> {
    let alloc = rt.alloc();
    let mut sentinels = Sentinels::new(alloc);
    assert!(rt; sentinels.begin(1, 1).is_ok());
    assert!(rt; sentinels.begin(2, 2).is_ok());
    let mut older = Holding::new(alloc);
    let mut younger = Holding::new(alloc);
    let granted = ask(&mut sentinels, &word(0), 2, &mut younger, true)?;
    assert!(rt; matches!(granted, ClaimVerdict::Granted));
    let busy = ask(&mut sentinels, &word(0), 1, &mut older, true)?;
    assert!(rt; matches!(busy, ClaimVerdict::Busy { holder: 2, .. }));
    assert!(rt; matches!(sentinels.doomed(2), Some(mark) if mark.by == 1));
    assert!(rt; sentinels.doomed(1).is_none());
    sentinels.settle(2);
    assert!(rt; sentinels.active(2));
    let conflict = ask(&mut sentinels, &word(0), 1, &mut older, false)?;
    assert!(rt; matches!(conflict, ClaimVerdict::Conflict { holder: 2, .. }));
    Ok(())
}

// A transaction ends, in steps that nobody reads.
fn end<L: Ledger>(sentinels: &mut Sentinels, tx: u32, held: Holding, blank: Blank) -> HeldList
    requires holds { Holds sentinels.old.claims tx held.items }
    requires name { blank.name ≡ L.name }
    requires parts { blank.parts ≡ L.parts }
    requires one { 0 < blank.parts }
{
    sentinels.end_counted(tx, held, &mut Steps::<L>::new(blank))
}

#[test]
fn an_end_leaves_nobody(rt: HostRuntime) -> Result<(), Fail> {
    let alloc = rt.alloc();
    let mut sentinels = Sentinels::new(alloc);
    assert!(rt; sentinels.begin(1, 1).is_ok());
    assert!(rt; sentinels.end(1, Holding::new(alloc)).as_slice().is_empty());
    assert!(rt; !sentinels.active(1));
    assert!(rt; sentinels.begin(1, 1).is_ok());
    let held = end::<Brand>(&mut sentinels, 1, Holding::new(alloc), Blank::new(1));
    assert!(rt; held.as_slice().is_empty());
    assert!(rt; !sentinels.active(1));
    Ok(())
}
