ghost use Rattle.std.specs.Prelude.{◌≡◌, ◌≤◌, ◌+◌, ℕ, List, length, Some, None, OnOk, OnErr, is_some, option_copied, true};
ghost use Rattle.xc_data.specs.declared.object.Object.{Object};
ghost use Rattle.xc_data.specs.declared.claim.Claim.{Claim};
ghost use Rattle.xc_locks.specs.Held.{HasRoomFor};
ghost use Rattle.xc_locks.specs.Met.{IsFirstMet};
ghost use Rattle.xc_locks.specs.Table.{Holds, KeepsOthers, held_mode};

use crate::seat::{ClaimVerdict, Seat};
use crate::seats::Seats;
use std::alloc::Global;
use std::sync::ledger::Ledger;
use xc_data::{Claim, HeldList, Mark, NoMemory, Object};
use xc_locks::{ClaimErr, Claims, Holding, Steps};

/// Claims, and the active transactions that make them: who runs, and who was told by an older one to give way.
///
/// Contracts see the claims by `held_mode`, and an active transaction by its number (`seat_in`). Whether what is held is held by active
/// ones is the caller's to keep: who has no seat is no younger than anybody, and is never waited for.
#[derive(Drop)]
pub struct Sentinels {
    claims: Claims,
    seats: Seats,
}

impl Sentinels {
    ghost use Rattle.xc_sentinel.specs.Seating.{KeepsSeats, SetsSeat, seat_in};
    ghost use Rattle.xc_sentinel.specs.Asking.{IsAnswer, IsYounger, changed, held_after, mark_of, marked_seat, settled};

    /// Nothing is held, and nobody is active. It takes no memory.
    pub fn new(alloc: Global) -> Sentinels
        ensures nothing { (n : ℕ) (o : Object) → held_mode result.claims n o ≡ None }
        ensures nobody { (n : ℕ) → seat_in result.seats n ≡ None }
    {
        Sentinels {
            claims: Claims::new(alloc),
            seats: Seats::new(alloc),
        }
    }

    /// The transaction is active and running from now on. Its rank is the number of its first attempt.
    pub fn begin(&mut self, tx: u32, rank: u32) -> Result<(), NoMemory>
        requires { seat_in self.old.seats tx ≡ None }
        ensures claims { self.new.claims ≡ self.old.claims }
        ensures ok { OnOk result (SetsSeat self.old.seats self.new.seats tx (Some (record { rank = rank; running = true; mark = None }))) }
        ensures err { OnErr result (KeepsSeats self.old.seats self.new.seats) }
    {
        self.seats.insert(tx, rank)
    }

    /// A transaction that claimed nothing is no longer active. It takes no memory.
    pub fn withdraw(&mut self, tx: u32)
        ensures claims { self.new.claims ≡ self.old.claims }
        ensures seats { SetsSeat self.old.seats self.new.seats tx None }
    {
        self.seats.remove(tx);
    }

    /// The transaction is no longer running: it commits or undoes. It takes no memory.
    #[inline(never)]
    pub fn settle(&mut self, tx: u32)
        ensures claims { self.new.claims ≡ self.old.claims }
        ensures seats { SetsSeat self.old.seats self.new.seats tx (changed settled (seat_in self.old.seats tx)) }
    {
        self.seats.settle(tx);
    }

    // Whether both are active and the holder is the younger.
    fn is_younger(&self, tx: u32, holder: u32) -> bool
        ensures yes { result ≡ true → IsYounger (seat_in self.now.seats tx) (seat_in self.now.seats holder) }
        ensures no { IsYounger (seat_in self.now.seats tx) (seat_in self.now.seats holder) → result ≡ true }
    {
        match (self.seats.get(tx), self.seats.get(holder)) {
            (Some(mine), Some(its)) => mine.rank < its.rank,
            _ => false,
        }
    }

    // A running transaction without a mark takes this one.
    fn mark(&mut self, holder: u32, mark: &Mark)
        ensures claims { self.new.claims ≡ self.old.claims }
        ensures seats { SetsSeat self.old.seats self.new.seats holder
            (changed (λ seat. marked_seat seat mark.now) (seat_in self.old.seats holder)) }
    {
        if let Some(seat) = self.seats.get(holder) {
            if seat.running && seat.mark.is_none() {
                let marked = Seat {
                    rank: seat.rank,
                    running: true,
                    mark: Some(mark.again()),
                };
                self.seats.set(holder, marked);
            }
        }
    }

    // What becomes of claims of which the first that is met is on this object. Apart, since most claims are granted.
    #[cold]
    #[inline(never)]
    fn meet(
        &mut self,
        object: &Object,
        holder: u32,
        tx: u32,
        patient: bool,
        at: u32,
    ) -> ClaimVerdict
        ensures { (claims : List Claim) → IsFirstMet self.old.claims claims tx object.now holder
            → IsAnswer (record { old = self.old; new = self.new }) tx (record { claims = claims; patient = patient; at = at }) result }
    {
        if !patient || !self.is_younger(tx, holder) {
            return ClaimVerdict::Conflict {
                object: object.again(),
                holder,
            };
        }
        let mark = Mark {
            object: object.again(),
            by: tx,
            at,
        };
        self.mark(holder, &mark);
        ClaimVerdict::Busy {
            object: object.again(),
            holder,
        }
    }

    /// The transaction claims, at a place in the journal. The first claim that is met decides: where there is patience and the holder
    /// is younger, the holder is marked, and the transaction waits for it. Of several marks a transaction keeps the first. The list of
    /// what it holds goes along, which has room for the claims.
    pub fn ask(
        &mut self,
        claims: &[Claim],
        tx: u32,
        held: &mut Holding,
        patient: bool,
        at: u32,
    ) -> ClaimVerdict
        requires list { Holds self.old.claims tx held.old.items }
        requires room { HasRoomFor held.old claims.now }
        ensures answer { IsAnswer (record { old = self.old; new = self.new }) tx
            (record { claims = claims.now; patient = patient; at = at }) result }
        ensures list { held.new.items ≡ held_after result held.old.items claims.now }
    {
        match self.claims.claim(claims, tx, held) {
            Ok(()) => ClaimVerdict::Granted,
            Err(ClaimErr::NoMemory) => ClaimVerdict::NoMemory,
            Err(ClaimErr::Met { object, holder }) => self.meet(&object, holder, tx, patient, at),
        }
    }

    /// The mark of a transaction, which then has to give way. It takes no memory.
    #[inline(always)]
    pub fn doomed(&self, tx: u32) -> Option<&Mark>
        ensures { option_copied result ≡ mark_of (seat_in self.now.seats tx) }
    {
        self.seats.mark_of(tx)
    }

    /// Whether a transaction has begun and not ended. It takes no memory.
    pub fn active(&self, tx: u32) -> bool
        ensures { result ≡ is_some (seat_in self.now.seats tx) }
    {
        self.seats.get(tx).is_some()
    }

    /// The transaction's claims go, which are those of the list, and its activity. Gives what it held. It takes no memory.
    pub fn end(&mut self, tx: u32, held: Holding) -> HeldList
        requires { Holds self.old.claims tx held.items }
        ensures released { (o : Object) → held_mode self.new.claims tx o ≡ None }
        ensures held { result ≡ held.items }
        ensures others { KeepsOthers tx self.old.claims self.new.claims }
        ensures seats { SetsSeat self.old.seats self.new.seats tx None }
    {
        self.seats.remove(tx);
        self.claims.release_all(tx, held)
    }

    /// The same, in at most as many steps as it held objects.
    pub fn end_counted<L: Ledger>(
        &mut self,
        tx: u32,
        held: Holding,
        steps: &mut Steps<L>,
    ) -> HeldList
        requires { Holds self.old.claims tx held.items }
        ensures released { (o : Object) → held_mode self.new.claims tx o ≡ None }
        ensures held { result ≡ held.items }
        ensures others { KeepsOthers tx self.old.claims self.new.claims }
        ensures seats { SetsSeat self.old.seats self.new.seats tx None }
        ensures cost { steps.new ≤ steps.old + length held.items }
    {
        self.seats.remove(tx);
        self.claims.release_counted(tx, held, steps)
    }
}
