ghost use Rattle.std.specs.Prelude.{◌≡◌, ◌<◌, ◌++◌, ◌∷◌, [], ℕ, None, Some, List, length, slice_index, slice_set, unwrap_or, IsSome, OnOk};
ghost use Rattle.std.specs.Prelude.{OnErr};
ghost use Rattle.xc_txmem.specs.Overlay.{overlaid, left_at, AreWithin};
ghost use Rattle.xc_txmem.specs.Views.{no_writes};

use crate::Words;
use std::alloc::Global;
use std::collections::BTreeMap;
use std::marker::Model;
use xc_data::NoMemory;

/// How many of the stores a load walks through.
const WALKED: usize = 8;

// How many stores there were at a save, and what the map had then.
#[derive(Drop)]
struct Save {
    count: usize,
    newest: BTreeMap<usize, u64>,
}

/// The stores of a transaction, in their order. Its own loads see them; nobody else does before
/// they are applied.
#[derive(Drop)]
pub struct WriteSet {
    // Oldest first.
    stores: Vec<(usize, u64)>,
    // What those after the walked ones leave at each place that they store to: few stores need no map.
    newest: BTreeMap<usize, u64>,
    // The save that is open, where one is.
    saved: Option<Save>,
}

impl Model for WriteSet {
    ghost use Rattle.std.specs.Prelude.{drop};
    ghost use Rattle.xc_txmem.specs.Overlay.{IsNewest};
    ghost use Rattle.xc_txmem.specs.Views.{WritesView};
    ghost use Rattle.xc_txmem.specs.Saves.{saved_stores, IsSaveOfStores};

    ghost Value = { WritesView };

    ghost view = { λ w. record { stores = w.stores.items; saved = saved_stores w.saved w.stores.items } };

    ghost invariant = { λ w. IsNewest w.newest (drop 8 w.stores.items) × IsSaveOfStores w.saved w.stores.items };
}

// What stores, the oldest first, leave at a place that had this value.
fn left_at(stores: &[(usize, u64)], at: usize, value: u64) -> u64
    ensures { result ≡ left_at at value stores.now }
{
    let mut left = value;
    for (place, stored) in stores {
        if *place == at {
            left = *stored;
        }
    }
    left
}

impl WriteSet {
    /// No store waits. It takes no memory.
    pub fn new(alloc: Global) -> WriteSet
        ensures { result ≡ no_writes }
    {
        WriteSet {
            stores: Vec::new(alloc),
            newest: BTreeMap::new(alloc),
            saved: None,
        }
    }

    /// No store waits any more and no save is open, and the room stays for the next ones. It takes no memory.
    pub fn clear(&mut self)
        ensures { self.new ≡ no_writes }
    {
        self.saved = None;
        self.stores.clear();
        self.newest.clear();
    }

    /// The stores so far are those of a save, in place of one that was open.
    pub fn save(&mut self) -> Result<(), NoMemory>
        ensures ok { OnOk result (self.new ≡ record self.old { saved = Some self.old.stores }) }
        ensures err { OnErr result (self.new ≡ self.old) }
    {
        let newest = self.newest.clone()?;
        self.saved = Some(Save {
            count: self.stores.len(),
            newest,
        });
        Ok(())
    }

    /// The save is open no longer, and all stores stay. It takes no memory.
    pub fn keep(&mut self)
        requires { IsSome self.old.saved }
        ensures { self.new ≡ record self.old { saved = None } }
    {
        self.saved = None;
    }

    /// The stores are those of the save, and it is open no longer. It takes no memory.
    pub fn back(&mut self)
        requires { IsSome self.old.saved }
        ensures { self.new ≡ record { stores = unwrap_or self.old.saved self.old.stores; saved = None } }
    {
        if let Some(save) = self.saved.take() {
            self.stores.truncate(save.count);
            self.newest = save.newest;
        }
    }

    /// A word as the transaction sees it. It is found by a short walk and one look-up, however many stores there are.
    pub fn load(&self, words: &Words, at: usize) -> u64
        requires { at < length words.now }
        ensures { result ≡ slice_index (overlaid words.now self.now.stores) at }
    {
        match self.newest.get(&at) {
            Some(value) => *value,
            None => {
                let walked = WALKED.min(self.stores.len());
                left_at(&self.stores[..walked], at, words.get(at))
            }
        }
    }

    /// All memory is taken before anything is changed.
    pub fn store(&mut self, at: usize, value: u64) -> Result<(), NoMemory>
        ensures ok { OnOk result (self.new ≡ record self.old { stores = self.old.stores ++ (at, value) ∷ [] }) }
        ensures over { OnOk result ((words : List ℕ)
            → overlaid words self.new.stores ≡ slice_set (overlaid words self.old.stores) at value) }
        ensures err { OnErr result (self.new ≡ self.old) }
    {
        self.stores.reserve(1)?;
        if WALKED <= self.stores.len() {
            self.newest.insert(at, value)?;
        }
        self.stores.push_reserved((at, value));
        Ok(())
    }

    /// Writes the stores into the words. It takes no memory.
    pub fn apply(&self, words: &mut Words)
        requires { AreWithin (length words.old) self.now.stores }
        ensures words { words.new ≡ overlaid words.old self.now.stores }
        ensures count { length words.new ≡ length words.old }
    {
        for (at, value) in self.stores.as_slice() {
            words.set(*at, *value);
        }
    }
}
