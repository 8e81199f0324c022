ghost use Rattle.std.specs.Prelude.{◌≡◌, ℕ, [], IsTrue, None, IfSome, IfNone, IfOk, IfErr, OnOk, OnErr};
ghost use Rattle.std.specs.FinMap as map;
ghost use Rattle.xc_locks.specs.Keys.{holder_of};
ghost use Rattle.xc_locks.specs.Others.{MayHold, IsReason};
ghost use Rattle.xc_locks.specs.Rows.{mode_among, with_mode};

use crate::key::Other;
use crate::object_holders::ObjectHolders;
use crate::refusal::Refusal;
use std::alloc::Global;
use std::collections::HashMap;
use std::marker::Model;
use xc_data::{Mode, NoMemory};

/// Who holds which object that isn't a word, and in which mode. What transactions made has a row while somebody holds it, and all
/// else from its first claim on.
#[derive(Drop)]
pub struct Others {
    alloc: Global,
    // The seed is fixed, and nobody walks the rows.
    rows: HashMap<Other, ObjectHolders>,
}

impl Model for Others {
    ghost use Rattle.std.specs.FinMap as map;
    ghost use Rattle.xc_data.specs.declared.claim.Mode.{Mode};
    ghost use Rattle.xc_locks.specs.Keys.{holder_cmp, coded_holder, coded_mode};
    ghost use Rattle.xc_locks.specs.Hashed.{HaveOwnObjects, others_of};

    ghost Value = { map.FinMap holder_cmp Mode };

    ghost coded = { map.code coded_holder coded_mode };

    ghost view = { λ a. others_of a.rows.entries };

    ghost invariant = { λ a. HaveOwnObjects a.rows.entries };
}

// Whether an object keeps its row: a script names only so many, and its prologue makes only so many. Those that transactions make have
// new numbers each time, so their rows would only grow in number.
fn has_lasting_row(object: &Other) -> bool {
    match object {
        Other::Name(_) | Other::Jobs => true,
        Other::File(num) | Other::Pipe(num) | Other::Pair(num) => num.tx == 0,
    }
}

// Whether the row of an object goes, which nobody may hold any longer.
fn row_goes(object: &Other, holders: &ObjectHolders) -> bool
    ensures { IsTrue result → holders.now ≡ [] }
{
    !has_lasting_row(object) && holders.is_empty()
}

impl Others {
    /// Nobody holds an object that isn't a word. It takes no memory.
    pub fn new(alloc: Global) -> Self
        ensures { result ≡ map.empty }
    {
        Others {
            alloc,
            rows: HashMap::new(alloc),
        }
    }

    /// The holders of an object, if there are any.
    pub fn holders_of(&self, object: Other) -> Option<&ObjectHolders>
        ensures some { IfSome result (λ m. (n : ℕ) → map.get self.now (holder_of object n) ≡ mode_among m.now n) }
        ensures none { IfNone result ((n : ℕ) → map.get self.now (holder_of object n) ≡ None) }
    {
        self.rows.get(&object)
    }

    /// A transaction holds an object in this mode, or in the stronger one where it did already. Only a new holder can run out of memory.
    pub fn hold(&mut self, object: Other, tx: u32, mode: Mode) -> Result<(), NoMemory>
        ensures ok { OnOk result
            (self.new ≡ map.insert self.old (holder_of object tx) (with_mode (map.get self.old (holder_of object tx)) mode)) }
        ensures err { OnErr result (self.new ≡ self.old) }
        ensures absent { OnErr result (map.get self.old (holder_of object tx) ≡ None) }
    {
        let Ok(row) = self.rows.entry(object) else {
            return Err(NoMemory);
        };
        let holders = row.or_insert(ObjectHolders::nobody());
        holders.hold(self.alloc, tx, mode)?;
        Ok(())
    }

    /// The same, unless the smallest other holder has a mode that isn't compatible. Gives the mode in which the transaction held the
    /// object before.
    pub fn claim(&mut self, object: Other, tx: u32, mode: Mode) -> Result<Option<Mode>, Refusal>
        ensures was { IfOk result (λ was. was ≡ map.get self.old (holder_of object tx)) }
        ensures free { OnOk result (MayHold (λ n. map.get self.old (holder_of object n)) tx mode) }
        ensures ok { OnOk result
            (self.new ≡ map.insert self.old (holder_of object tx) (with_mode (map.get self.old (holder_of object tx)) mode)) }
        ensures err { OnErr result (self.new ≡ self.old) }
        ensures reason { IfErr result (IsReason (λ n. map.get self.old (holder_of object n)) tx mode) }
    {
        let Ok(row) = self.rows.entry(object) else {
            return Err(Refusal::NoMemory);
        };
        let holders = row.or_insert(ObjectHolders::nobody());
        holders.claim(self.alloc, tx, mode)
    }

    /// Gives the mode that was there. It takes no memory.
    pub fn remove(&mut self, object: Other, tx: u32) -> Option<Mode>
        ensures value { result ≡ map.get self.old (holder_of object tx) }
        ensures removed { self.new ≡ map.remove self.old (holder_of object tx) }
    {
        let holders = self.rows.get_mut(&object)?;
        let mode = holders.remove(tx);
        if row_goes(&object, holders) {
            self.rows.remove(&object);
        }
        mode
    }
}
