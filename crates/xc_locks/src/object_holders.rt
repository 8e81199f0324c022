ghost use Rattle.std.specs.Prelude.{◌≡◌, ◌↔◌, ◌+◌, ℕ, [], ◌∷◌, Some, None, IsTrue, cond, IfOk, IfErr, OnOk, OnErr, MatchOption};
ghost use Rattle.std.specs.Ordering.{nat_cmp};
ghost use Rattle.std.specs.BTreeMap.{is_at};
ghost use Rattle.xc_locks.specs.First.{IsFirstFrom};
ghost use Rattle.xc_locks.specs.Others.{IsFirstBut, MayHold, IsMetBy, IsReason};
ghost use Rattle.xc_locks.specs.Rows.{mode_among, with_mode};

use crate::refusal::Refusal;
use std::alloc::Global;
use std::collections::BTreeMap;
use std::marker::Model;
use std::ops::Bound;
use xc_data::{Mode, NoMemory};

// In what form the holders of an object lie.
#[derive(Drop)]
enum HoldersForm {
    Nobody,
    One(u32, Mode),
    Many(BTreeMap<u32, Mode>),
}

/// The transactions that hold one object, each with its mode. One alone stands in its place; a tree is made for a second one, and
/// stays. Contracts see them as a list.
///
/// Mostly there is no holder or one; a tree would then be memory that each claim takes and each end gives back.
#[derive(Drop)]
pub struct ObjectHolders {
    form: HoldersForm,
}

impl Model for ObjectHolders {
    ghost use Rattle.std.specs.Prelude.{ℕ, List};
    ghost use Rattle.xc_data.specs.declared.claim.Mode.{Mode};
    ghost use Rattle.xc_locks.specs.Rows.{listed};

    ghost Value = { List (ℕ × Mode) };

    ghost view = { λ a. listed a.form };
}

// A tree of two holders. If they are one, it has the second mode.
fn both(alloc: Global, one: (u32, Mode), two: (u32, Mode)) -> Result<BTreeMap<u32, Mode>, NoMemory>
    ensures { IfOk result (λ m. (n : ℕ) → mode_among m.entries n ≡ cond (is_at (nat_cmp two.0) n) (Some two.1) (mode_among (one ∷ []) n)) }
{
    let mut modes = BTreeMap::new(alloc);
    modes.insert(one.0, one.1)?;
    modes.insert(two.0, two.1)?;
    Ok(modes)
}

// A transaction holds the object too, or in the stronger mode. Gives the mode in which it did before.
fn hold_among(
    modes: &mut BTreeMap<u32, Mode>,
    tx: u32,
    mode: Mode,
) -> Result<Option<Mode>, NoMemory>
    ensures was { IfOk result (λ was. was ≡ mode_among modes.old.entries tx) }
    ensures ok { OnOk result ((n : ℕ)
        → mode_among modes.new.entries n
        ≡ cond (is_at (nat_cmp tx) n) (Some (with_mode (mode_among modes.old.entries tx) mode)) (mode_among modes.old.entries n)) }
    ensures err { OnErr result (modes.new.entries ≡ modes.old.entries) }
    ensures absent { OnErr result (mode_among modes.old.entries tx ≡ None) }
{
    let mode = match modes.get(&tx) {
        Some(held) => held.stronger(mode),
        None => mode,
    };
    Ok(modes.insert(tx, mode)?)
}

impl ObjectHolders {
    /// No holder. It takes no memory.
    pub fn nobody() -> ObjectHolders
        ensures { result ≡ [] }
    {
        ObjectHolders {
            form: HoldersForm::Nobody,
        }
    }

    /// Whether nobody holds it.
    pub fn is_empty(&self) -> bool
        ensures { IsTrue result ↔ (self.now ≡ []) }
    {
        match &self.form {
            HoldersForm::Nobody => true,
            HoldersForm::One(..) => false,
            HoldersForm::Many(modes) => modes.is_empty(),
        }
    }

    /// In which mode a transaction holds the object; `None` if it doesn't.
    pub fn get(&self, tx: u32) -> Option<Mode>
        ensures { result ≡ mode_among self.now tx }
    {
        match &self.form {
            HoldersForm::One(holder, mode) if *holder == tx => Some(*mode),
            HoldersForm::Many(modes) => modes.get(&tx).copied(),
            HoldersForm::Nobody | HoldersForm::One(..) => None,
        }
    }

    /// A transaction holds the object in this mode, or in the stronger one where it did already. Gives the mode in which it did
    /// before. Only a new holder can run out of memory.
    pub fn hold(&mut self, alloc: Global, tx: u32, mode: Mode) -> Result<Option<Mode>, NoMemory>
        ensures was { IfOk result (λ was. was ≡ mode_among self.old tx) }
        ensures ok { OnOk result ((n : ℕ)
            → mode_among self.new n
            ≡ cond (is_at (nat_cmp tx) n) (Some (with_mode (mode_among self.old tx) mode)) (mode_among self.old n)) }
        ensures err { OnErr result (self.new ≡ self.old) }
        ensures absent { OnErr result (mode_among self.old tx ≡ None) }
    {
        match &mut self.form {
            HoldersForm::Nobody => {
                self.form = HoldersForm::One(tx, mode);
                Ok(None)
            }
            HoldersForm::One(holder, held) if *holder == tx => {
                let was = *held;
                *held = was.stronger(mode);
                Ok(Some(was))
            }
            HoldersForm::One(holder, held) => {
                self.form = HoldersForm::Many(both(alloc, (*holder, *held), (tx, mode))?);
                Ok(None)
            }
            HoldersForm::Many(modes) => hold_among(modes, tx, mode),
        }
    }

    /// The same, unless the smallest other holder has a mode that isn't compatible.
    pub fn claim(&mut self, alloc: Global, tx: u32, mode: Mode) -> Result<Option<Mode>, Refusal>
        ensures was { IfOk result (λ was. was ≡ mode_among self.old tx) }
        ensures free { OnOk result (MayHold (mode_among self.old) tx mode) }
        ensures ok { OnOk result ((n : ℕ)
            → mode_among self.new n
            ≡ cond (is_at (nat_cmp tx) n) (Some (with_mode (mode_among self.old tx) mode)) (mode_among self.old n)) }
        ensures err { OnErr result (self.new ≡ self.old) }
        ensures reason { IfErr result (IsReason (mode_among self.old) tx mode) }
    {
        if let Some(holder) = self.met_by(tx, mode) {
            return Err(Refusal::Met(holder));
        }
        Ok(self.hold(alloc, tx, mode)?)
    }

    /// A transaction holds the object no longer. Gives the mode in which it did. It takes no memory.
    pub fn remove(&mut self, tx: u32) -> Option<Mode>
        ensures value { result ≡ mode_among self.old tx }
        ensures removed { (n : ℕ) → mode_among self.new n ≡ cond (is_at (nat_cmp tx) n) None (mode_among self.old n) }
    {
        match &mut self.form {
            HoldersForm::One(holder, mode) if *holder == tx => {
                let mode = *mode;
                self.form = HoldersForm::Nobody;
                Some(mode)
            }
            HoldersForm::Many(modes) => modes.remove(&tx),
            HoldersForm::Nobody | HoldersForm::One(..) => None,
        }
    }

    /// The smallest holder.
    pub fn first(&self) -> Option<(u32, Mode)>
        ensures { IsFirstFrom (mode_among self.now) 0 result }
    {
        match &self.form {
            HoldersForm::Nobody => None,
            HoldersForm::One(holder, mode) => Some((*holder, *mode)),
            HoldersForm::Many(modes) => {
                let (holder, mode) = modes.first_key_value()?;
                Some((*holder, *mode))
            }
        }
    }

    /// The smallest holder that is greater than this one.
    pub fn first_behind(&self, tx: u32) -> Option<(u32, Mode)>
        ensures { IsFirstFrom (mode_among self.now) (tx + 1) result }
    {
        match &self.form {
            HoldersForm::One(holder, mode) if *holder > tx => Some((*holder, *mode)),
            HoldersForm::Many(modes) => {
                let behind = (Bound::Excluded(tx), Bound::Unbounded);
                let (holder, mode) = modes.range(behind).next()?;
                Some((*holder, *mode))
            }
            HoldersForm::Nobody | HoldersForm::One(..) => None,
        }
    }

    // The smallest holder but this one.
    #[inline(always)]
    fn first_but(&self, tx: u32) -> Option<(u32, Mode)>
        ensures { IsFirstBut (mode_among self.now) tx result }
    {
        let (holder, mode) = self.first()?;
        if holder == tx {
            self.first_behind(tx)
        } else {
            Some((holder, mode))
        }
    }

    /// The smallest holder but this one, if its mode isn't compatible with this mode.
    #[inline(always)]
    pub fn met_by(&self, tx: u32, mode: Mode) -> Option<u32>
        ensures { MatchOption result (MayHold (mode_among self.now) tx mode) (IsMetBy (mode_among self.now) tx mode) }
    {
        let (holder, held) = self.first_but(tx)?;
        if mode.is_compatible(held) {
            None
        } else {
            Some(holder)
        }
    }
}
