use crate::keys::Keys;
use crate::seat::{Seat, Slot};
use slab::Slab;
use std::alloc::Global;
use std::marker::Model;
use xc_data::{Mark, NoMemory, Object};

/// The active transactions, each with its number: in a slab, found by a map from numbers to keys. Contracts see them by
/// `seat_in`.
#[derive(Drop)]
pub struct Seats {
    slots: Slab<Slot>,
    keys: Keys,
    // Whether a seat may have a mark: where none has, which is mostly so, no seat is looked up for its mark.
    marked: bool,
}

impl Model for Seats {
    ghost use Rattle.std.specs.Prelude.{◌≡◌, false};
    ghost use Rattle.xc_sentinel.specs.Seated.{AreSeated, AreUnmarked, Seats as Table, coded_seats};

    ghost Value = { Table };

    ghost coded = { coded_seats };

    ghost view = { λ s. record { slots = s.slots; keys = s.keys } };

    ghost invariant = { λ s. AreSeated s.keys s.slots × (s.marked ≡ false → AreUnmarked s.slots) };
}

impl Seats {
    ghost use Rattle.std.specs.Prelude.{◌≡◌, ℕ, Some, None, OnOk, OnErr, IsSome, true, option_copied};
    ghost use Rattle.xc_sentinel.specs.Asking.{changed, mark_of, settled};
    ghost use Rattle.xc_sentinel.specs.Seating.{KeepsSeats, SetsSeat, seat_in};

    /// No active transaction. It takes no memory.
    pub fn new(alloc: Global) -> Seats
        ensures { (n : ℕ) → seat_in result n ≡ None }
    {
        Seats {
            slots: Slab::new(alloc),
            keys: Keys::new(alloc),
            marked: false,
        }
    }

    /// The seat of an active transaction; `None` if it isn't active.
    pub fn get(&self, tx: u32) -> Option<&Seat>
        ensures { option_copied result ≡ seat_in self.now tx }
    {
        let key = self.keys.get(tx)?;
        let slot = self.slots.get(key)?;
        Some(&slot.seat)
    }

    /// The mark of an active transaction; `None` if it isn't active. It takes no memory.
    #[inline(always)]
    pub fn mark_of(&self, tx: u32) -> Option<&Mark>
        ensures { option_copied result ≡ mark_of (seat_in self.now tx) }
    {
        if !self.marked {
            return None;
        }
        self.find_mark(tx)
    }

    // The same, where a seat may have a mark. Apart, since mostly none has.
    #[cold]
    #[inline(never)]
    fn find_mark(&self, tx: u32) -> Option<&Mark>
        ensures { option_copied result ≡ mark_of (seat_in self.now tx) }
    {
        self.get(tx)?.mark.as_ref()
    }

    /// A transaction that isn't active becomes so: it runs, and has no mark.
    pub fn insert(&mut self, tx: u32, rank: u32) -> Result<(), NoMemory>
        requires { seat_in self.old tx ≡ None }
        ensures ok { OnOk result (SetsSeat self.old self.new tx (Some (record { rank = rank; running = true; mark = None }))) }
        ensures err { OnErr result (KeepsSeats self.old self.new) }
    {
        // The borrow checker wants each type named that a moved value has inside.
        let _object: Option<Object> = None;
        let mark: Option<Mark> = None;
        self.slots.reserve(1)?;
        let key = self.slots.vacant_key();
        self.keys.insert(tx, key)?;
        let seat = Seat {
            rank,
            running: true,
            mark,
        };
        self.slots.insert_reserved(Slot { tx, seat });
        Ok(())
    }

    /// An active transaction's seat becomes another. It takes no memory.
    pub fn set(&mut self, tx: u32, seat: Seat)
        requires { IsSome (seat_in self.old tx) }
        ensures { SetsSeat self.old self.new tx (Some seat) }
    {
        if let Some(key) = self.keys.get(tx) {
            if let Some(slot) = self.slots.get_mut(key) {
                self.marked = self.marked || seat.mark.is_some();
                slot.seat = seat;
            }
        }
    }

    /// An active transaction no longer runs. It takes no memory.
    pub fn settle(&mut self, tx: u32)
        ensures { SetsSeat self.old self.new tx (changed settled (seat_in self.old tx)) }
    {
        if let Some(key) = self.keys.get(tx) {
            if let Some(slot) = self.slots.get_mut(key) {
                slot.seat.running = false;
            }
        }
    }

    /// A transaction is no longer active. It takes no memory.
    pub fn remove(&mut self, tx: u32)
        ensures { SetsSeat self.old self.new tx None }
    {
        if let Some(key) = self.keys.remove(tx) {
            self.slots.try_remove(key);
            // Where no seat is left, none has a mark.
            self.marked = self.marked && !self.slots.is_empty();
        }
    }
}
