ghost use Rattle.std.specs.Prelude.{◌≡◌, ◌<◌, ◌≤◌, ◌+◌, ℕ, [], ◌∷◌, length, if◌then◌else◌};
ghost use Rattle.std.specs.Prelude.{All, MatchOption, MatchResult, None, OnOk, OnErr, IfErr};
ghost use Rattle.xc_data.specs.Claims.{holding, objects};
ghost use Rattle.xc_data.specs.declared.object.Object.{Object};
ghost use Rattle.xc_locks.specs.Held.{HasRoomFor};
ghost use Rattle.xc_locks.specs.Table.{AreCompatible, Holds, KeepsOthers, claimed, has, held_mode};
ghost use Rattle.xc_locks.specs.Met.{IsCause, IsMet, IsNotMet};

use crate::claiming::claim_object;
use crate::holders::Holders;
use crate::holding::Holding;
use crate::placing::hold_all;
use crate::reading::met_by;
use crate::refusal::{ClaimErr, Refusal};
use crate::releasing::take_all;
use crate::steps::Steps;
use std::alloc::Global;
use std::marker::{Brand, Model};
use std::sync::ledger::{Blank, Ledger};
use xc_data::{Claim, HeldList, Items};

/// Which transaction holds which object, and in which mode. Contracts see it by `held_mode`.
#[derive(Drop)]
pub struct Claims {
    alloc: Global,
    holders: Holders,
}

impl Model for Claims {
    ghost use Rattle.xc_locks.specs.Table.{AreCompatible, Table, coded_table};

    ghost Value = { Table };

    ghost coded = { coded_table };

    ghost view = { λ a. a.holders };

    ghost invariant = { λ a. AreCompatible a.holders };
}

impl Claims {
    /// Nobody holds anything. It takes no memory.
    pub fn new(alloc: Global) -> Claims
        ensures empty { (n : ℕ) (o : Object) → held_mode result n o ≡ None }
        ensures coherent { AreCompatible result }
    {
        Claims {
            alloc,
            holders: Holders::new(alloc),
        }
    }

    /// The smallest transaction that holds the claimed object in a mode which isn't compatible with
    /// the claimed one. It takes no memory.
    pub fn met(&self, claim: &Claim, tx: u32) -> Option<u32>
        ensures met { MatchOption result (IsNotMet self.now tx claim.now) (IsMet self.now claim.now tx) }
        ensures coherent { AreCompatible self.now }
    {
        met_by::<Brand>(&self.holders, claim, tx, Blank::new(1))
    }

    // Whether a claim is met, and which is the first.
    fn check(&self, claims: &[Claim], tx: u32) -> Result<(), ClaimErr>
        ensures { MatchResult result (λ _. All (IsNotMet self.now tx) claims.now) (IsCause self.now claims.now tx) }
    {
        for claim in claims {
            if let Some(holder) = self.met(claim, tx) {
                return Err(ClaimErr::Met {
                    object: claim.object.again(),
                    holder,
                });
            }
        }
        Ok(())
    }

    // One claim, which most calls have: its object is looked up once, and what is held is walked only where the mode rises.
    fn claim_one(&mut self, claim: &Claim, tx: u32, held: &mut Holding) -> Result<(), ClaimErr>
        requires list { Holds self.old tx held.old.items }
        requires room { 1 ≤ held.old.spare }
        ensures unmet { OnOk result (All (IsNotMet self.old tx) (claim.now ∷ [])) }
        ensures held { OnOk result ((o : Object) → held_mode self.new tx o ≡ claimed (held_mode self.old tx o) (claim.now ∷ []) o) }
        ensures others { OnOk result (KeepsOthers tx self.old self.new) }
        ensures err { OnErr result (self.new ≡ self.old) }
        ensures cause { IfErr result (IsCause self.old (claim.now ∷ []) tx) }
        ensures coherent { AreCompatible self.new }
        ensures list { OnOk result (held.new.items ≡ holding held.old.items (claim.now ∷ [])) }
        ensures unlisted { OnErr result (held.new ≡ held.old) }
    {
        match claim_object::<Brand>(&mut self.holders, claim, tx, Blank::new(1)) {
            Ok(was) => {
                held.follow(claim, was);
                Ok(())
            }
            Err(Refusal::Met(holder)) => Err(ClaimErr::Met {
                object: claim.object.again(),
                holder,
            }),
            Err(Refusal::NoMemory) => Err(ClaimErr::NoMemory),
        }
    }

    /// The transaction holds all claimed objects. One that it held already it holds in the stronger of both modes. The list of what it
    /// holds goes along, which has room for the claims.
    pub fn claim(&mut self, claims: &[Claim], tx: u32, held: &mut Holding) -> Result<(), ClaimErr>
        requires list { Holds self.old tx held.old.items }
        requires room { HasRoomFor held.old claims.now }
        ensures unmet { OnOk result (All (IsNotMet self.old tx) claims.now) }
        ensures held { OnOk result ((o : Object) → held_mode self.new tx o ≡ claimed (held_mode self.old tx o) claims.now o) }
        ensures others { OnOk result (KeepsOthers tx self.old self.new) }
        ensures err { OnErr result (self.new ≡ self.old) }
        ensures cause { IfErr result (IsCause self.old claims.now tx) }
        ensures coherent { AreCompatible self.new }
        ensures list { OnOk result (held.new.items ≡ holding held.old.items claims.now) }
        ensures unlisted { OnErr result (held.new ≡ held.old) }
    {
        if let [claim] = claims {
            return self.claim_one(claim, tx, held);
        }
        self.check(claims, tx)?;
        hold_all::<Brand>(&mut self.holders, self.alloc, claims, tx, Blank::new(1))?;
        held.hold(claims);
        Ok(())
    }

    /// The transaction holds nothing any longer of what is listed. Gives the list, each object once, in the mode in which it was
    /// held; what the transaction doesn't hold is passed over. It takes no memory.
    pub fn release_all(&mut self, tx: u32, held: Holding) -> HeldList
        ensures freed { (o : Object) → held_mode self.new tx o ≡ (if has (objects held.items) o then None else held_mode self.old tx o) }
        ensures released { Holds self.old tx held.items → (o : Object) → held_mode self.new tx o ≡ None }
        ensures held { Holds self.old tx held.items → result ≡ held.items }
        ensures others { KeepsOthers tx self.old self.new }
        ensures coherent { AreCompatible self.new }
    {
        self.release_uncounted::<Brand>(tx, held, Blank::new(1))
    }

    // The same, with steps that nobody reads.
    fn release_uncounted<L: Ledger>(&mut self, tx: u32, held: Holding, blank: Blank) -> HeldList
        requires name { blank.name ≡ L.name }
        requires parts { blank.parts ≡ L.parts }
        requires one { 0 < blank.parts }
        ensures freed { (o : Object) → held_mode self.new tx o ≡ (if has (objects held.items) o then None else held_mode self.old tx o) }
        ensures released { Holds self.old tx held.items → (o : Object) → held_mode self.new tx o ≡ None }
        ensures held { Holds self.old tx held.items → result ≡ held.items }
        ensures others { KeepsOthers tx self.old self.new }
        ensures coherent { AreCompatible self.new }
    {
        self.release_counted(tx, held, &mut Steps::<L>::new(blank))
    }

    /// The same, in at most as many steps as objects are listed.
    pub fn release_counted<L: Ledger>(
        &mut self,
        tx: u32,
        held: Holding,
        steps: &mut Steps<L>,
    ) -> HeldList
        ensures freed { (o : Object) → held_mode self.new tx o ≡ (if has (objects held.items) o then None else held_mode self.old tx o) }
        ensures released { Holds self.old tx held.items → (o : Object) → held_mode self.new tx o ≡ None }
        ensures held { Holds self.old tx held.items → result ≡ held.items }
        ensures others { KeepsOthers tx self.old self.new }
        ensures coherent { AreCompatible self.new }
        ensures cost { steps.new ≤ steps.old + length held.items }
    {
        let mut claims = held.into_claims();
        take_all(&mut self.holders, &mut claims, tx, steps);
        Items::from_vec(claims).trimmed()
    }
}
