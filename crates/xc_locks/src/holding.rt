ghost use Rattle.std.specs.Prelude.{◌≡◌, ◌<◌, ◌≤◌, ◌+◌, ◌^◌, ◌∷◌, [], length, OnOk};
ghost use Rattle.xc_data.specs.Claims.{AreOnceAtMost, holding, holding_one, objects};
ghost use Rattle.xc_locks.specs.Held.{HasRoomFor, IsPlaceOf};
ghost use Rattle.xc_locks.specs.Table.{mode_in};

use std::alloc::Global;
use std::marker::Model;
use xc_data::{Claim, KeptClaim, Mode, NoMemory, Object};
use xc_roomy::Roomy;

/// What the claims of a transaction's calls hold: each object once, where it was first claimed, in the strongest mode in which it
/// was. So a release costs what is held, however often it was claimed. One claim walks what is held only where its mode rises.
#[derive(Drop)]
pub struct Holding {
    claims: Roomy<KeptClaim>,
}

impl Model for Holding {
    ghost use Rattle.xc_data.specs.Claims.{AreOnceAtMost, objects};
    ghost use Rattle.xc_locks.specs.Held.{Held};

    ghost Value = { Held };

    ghost view = { λ h. record { items = h.claims.items; spare = h.claims.spare } };

    ghost invariant = { λ h. AreOnceAtMost (objects h.claims.items) };
}

impl Holding {
    /// A transaction that holds nothing. It takes no memory.
    pub fn new(alloc: Global) -> Holding
        ensures { result.items ≡ [] }
    {
        Holding {
            claims: Roomy::new(alloc),
        }
    }

    /// Makes room for `n` more objects.
    pub fn make_room(&mut self, n: u32) -> Result<(), NoMemory>
        ensures room { OnOk result (n ≤ self.new.spare) }
        ensures items { self.new.items ≡ self.old.items }
    {
        self.claims.reserve(n)
    }

    /// Makes room for these claims.
    pub fn reserve(&mut self, claims: &[Claim]) -> Result<(), NoMemory>
        requires { length claims.now < 2 ^ 32 }
        ensures room { OnOk result (HasRoomFor self.new claims.now) }
        ensures items { self.new.items ≡ self.old.items }
    {
        self.make_room(claims.len() as u32)
    }

    /// Holds what is claimed, into the room for it. It takes no memory.
    pub(crate) fn hold(&mut self, claims: &[Claim])
        requires { HasRoomFor self.old claims.now }
        ensures { self.new.items ≡ holding self.old.items claims.now }
    {
        hold_each(&mut self.claims, claims);
    }

    /// Holds what is claimed of one object, which was held in this mode before, into the room for it. Only where the mode rises it walks
    /// what is held. It takes no memory.
    pub(crate) fn follow(&mut self, claim: &Claim, was: Option<Mode>)
        requires room { 1 ≤ self.old.spare }
        requires was { was ≡ mode_in self.old.items claim.now.object }
        ensures { self.new.items ≡ holding self.old.items (claim.now ∷ []) }
    {
        match was {
            None => self.claims.enter(KeptClaim::of(claim)),
            Some(mode) if mode.stronger(claim.mode) == mode => {}
            Some(_) => hold_one(&mut self.claims, claim),
        }
    }

    /// The claims themselves. It takes no memory.
    pub(crate) fn into_claims(self) -> Vec<KeptClaim>
        ensures items { result.items ≡ self.items }
        ensures once { AreOnceAtMost (objects result.items) }
    {
        self.claims.into_items().into_vec()
    }
}

// The place of a claim on an object in what is held.
fn place_of(held: &[KeptClaim], object: &Object) -> Option<usize>
    ensures { IsPlaceOf held.now object.now result }
{
    for at in 0..held.len() {
        if held[at].is_on(object) {
            return Some(at);
        }
    }
    None
}

// One claim more is held, into the room for it.
fn hold_one(held: &mut Roomy<KeptClaim>, claim: &Claim)
    requires once { AreOnceAtMost (objects held.old.items) }
    requires room { 1 ≤ held.old.spare }
    ensures items { held.new.items ≡ holding_one held.old.items claim.now }
    ensures once { AreOnceAtMost (objects held.new.items) }
    ensures spare { held.old.spare ≤ held.new.spare + 1 }
{
    match place_of(held.as_slice(), &claim.object) {
        Some(at) => {
            let held_claim = held.get(at);
            let mode = held_claim.mode().stronger(claim.mode);
            let risen = held_claim.with_mode(mode);
            held.set(at, risen);
        }
        None => held.enter(KeptClaim::of(claim)),
    }
}

// More claims are held, into the room for them.
fn hold_each(held: &mut Roomy<KeptClaim>, claims: &[Claim])
    requires once { AreOnceAtMost (objects held.old.items) }
    requires room { length claims.now ≤ held.old.spare }
    ensures items { held.new.items ≡ holding held.old.items claims.now }
    ensures once { AreOnceAtMost (objects held.new.items) }
{
    for claim in claims {
        hold_one(held, claim);
    }
}
