ghost use Rattle.std.specs.Prelude.{true, All, ◌-◌, ◌^◌, min, sum_by, ◌≡◌, ◌≢◌, ◌==◌, ◌≤◌, ◌<◌, ◌+◌, ◌++◌, ◌∷◌, [], ℕ, List, length, OnOk};
ghost use Rattle.std.specs.Prelude.{OnErr, IsTrue};
ghost use Rattle.std.specs.List.{list_any};
ghost use Rattle.xc_data.specs.declared.undo.Undo.{Undo};
ghost use Rattle.xc_data.specs.declared.undo.UndoEnd.{UndoEnd};
ghost use Rattle.xc_data.specs.Faults.{end_faults, undo_faults};
ghost use Rattle.xc_world.specs.Ends.{blocker, is_undone};
ghost use Rattle.xc_compensate.specs.Hindered.{hinders};
ghost use Rattle.xc_compensate.specs.declared.stack.UndoTurn.TheVariants.{Ended};
ghost use Rattle.xc_compensate.specs.Records.{Records, IsRecord, IsTried, NextIsCovered, covers, covered, cut_to};
ghost use Rattle.xc_compensate.specs.Turns.{turn_of};

use crate::undoing::{is_undone, try_one};
use std::alloc::Global;
use std::marker::Model;
use xc_data::{Items, NoMemory, RecordList, Undo, UndoEnd};
use xc_host::Host;

/// What one turn of an undoing did.
#[derive(Clone, Copy, PartialEq)]
pub enum UndoTurn {
    /// Every record has its end.
    Ended,
    Undone { faults: u32 },
    Failed { done: u32, faults: u32 },
    Blocked { by: u32 },
}

/// The records of a transaction's calls, numbered from 1 in the order of the calls.
///
/// Each record lies beside the place of its end, so that undoing takes no memory.
#[derive(Drop)]
pub struct Stack {
    alloc: Global,
    records: Vec<(Undo, UndoEnd)>,
    // How many have no end yet, and `NO_END` in its place: the oldest ones.
    pending: usize,
    // Whether one of the others failed or was blocked.
    hindered: bool,
}

// Stands where a record has no end yet.
const NO_END: UndoEnd = UndoEnd::Undone { faults: 0 };

impl Model for Stack {
    ghost use Rattle.xc_compensate.specs.Records.{Records, IsStack, split_records};

    ghost Value = { Records };

    ghost view = { λ a. split_records a.records.items a.pending };

    ghost invariant = { λ a. IsStack a.records.items a.pending a.hindered };
}

// The record, covering its first n bytes.
fn cover(undo: &mut Undo, n: u32)
    ensures { undo.new ≡ covered undo.old n }
{
    match undo {
        Undo::Overwrite { n: covers, .. } => *covers = n,
        Undo::Append { n: covers, .. } => *covers = n,
        Undo::Create { .. } | Undo::Rename { .. } | Undo::NewPipe(_) | Undo::NewPair(_) => {}
    }
}

/// What a turn answers whose record came to this end.
fn turn_of(end: UndoEnd) -> UndoTurn
    ensures { result ≡ turn_of end }
{
    match end {
        UndoEnd::Undone { faults } => UndoTurn::Undone { faults },
        UndoEnd::Failed { done, faults } => UndoTurn::Failed { done, faults },
        UndoEnd::Blocked { by } => UndoTurn::Blocked { by },
    }
}

// The faults that a compensation met.
fn faults_of(end: &UndoEnd) -> u32
    ensures { result ≡ end_faults end.now }
{
    match end {
        UndoEnd::Undone { faults } | UndoEnd::Failed { faults, .. } => *faults,
        UndoEnd::Blocked { .. } => 0,
    }
}

// The records with an end that may block another: none, where none failed or was blocked.
fn hindering(hindered: bool, ended: &[(Undo, UndoEnd)]) -> &[(Undo, UndoEnd)]
    requires { hindered ≡ list_any hinders ended.now }
    ensures few { length result.now ≤ length ended.now }
    ensures way { (from : ℕ) (older : Undo) → blocker from older result.now ≡ blocker from older ended.now }
{
    if hindered { ended } else { &[] }
}

impl Stack {
    /// No record yet. It takes no memory.
    pub fn new(alloc: Global) -> Stack
        ensures { result ≡ record { pending = []; ended = [] } }
    {
        Stack {
            alloc,
            records: Vec::new(alloc),
            pending: 0,
            hindered: false,
        }
    }

    /// No record is left, and the place for records stays. It takes no memory.
    pub fn clear(&mut self)
        ensures { self.new ≡ record { pending = []; ended = [] } }
    {
        self.records.clear();
        self.pending = 0;
        self.hindered = false;
    }

    /// Made before the host is called.
    /// `NoMemory` also past 2^32 records; a transaction has at most 256 calls.
    pub fn push(&mut self, undo: Undo) -> Result<(), NoMemory>
        requires record { IsRecord undo }
        requires none { self.old.ended ≡ [] }
        ensures ok { OnOk result (self.new ≡ record { pending = self.old.pending ++ undo ∷ []; ended = [] }) }
        ensures err { OnErr result (self.new ≡ self.old) }
    {
        // never reached in memory
        if self.records.len() >= u32::MAX as usize {
            return Err(NoMemory);
        }
        self.records.push((undo, NO_END))?;
        self.pending = self.records.len();
        Ok(())
    }

    /// The newest record covers its first n bytes alone; where n is 0 it goes. It takes no memory.
    pub fn trim(&mut self, n: u32)
        requires some { self.old.pending ≢ [] }
        requires within { (older : List Undo) (u : Undo) → self.old.pending ≡ older ++ u ∷ [] → n ≤ covers u }
        ensures { (older : List Undo) (u : Undo) → self.old.pending ≡ older ++ u ∷ []
            → self.new ≡ record self.old { pending = older ++ cut_to n u } }
    {
        let newest = self.pending - 1;
        if n == 0 {
            self.records.remove(newest);
            self.pending = newest;
        } else {
            cover(&mut self.records[newest].0, n);
        }
    }

    /// Tries the newest record that has no end yet. It takes no memory.
    ///
    /// Where a newer record of the same object failed or was blocked, the host isn't called. A fault
    /// loses nothing of what was restored before it.
    pub fn undo_next<H: Host>(&mut self, host: &mut H, tries: u32) -> UndoTurn
        requires tries { 1 ≤ tries }
        requires covered { IsTrue H.model.tells → NextIsCovered (H.model.contents host.old) self.old }
        ensures ended { self.old.pending ≡ [] → (result ≡ Ended) × (self.new ≡ self.old) × (host.new ≡ host.old) }
        ensures tried { self.old.pending ≢ []
            → (t : IsTried H.model tries (record { host = host.old; undo = self.old }) (record { host = host.new; undo = self.new }))
            × (result ≡ turn_of t.end) }
    {
        let Some(newest) = self.pending.checked_sub(1) else {
            return UndoTurn::Ended;
        };
        let number = self.pending as u32;
        let newer = hindering(self.hindered, &self.records[self.pending..]);
        let end = try_one(
            self.alloc,
            host,
            number,
            &self.records[newest].0,
            newer,
            tries,
        );
        self.records[newest].1 = end;
        self.pending = newest;
        self.hindered = !is_undone(end) || self.hindered;
        turn_of(end)
    }

    /// How many records there are. It takes no memory.
    pub fn mark(&self) -> u32
        ensures { result ≡ length self.now.pending + length self.now.ended }
    {
        self.records.len() as u32
    }

    /// How many records have no end yet: the number of the one that is tried next. It takes no memory.
    pub fn left(&self) -> u32
        ensures { result ≡ length self.now.pending }
    {
        self.pending as u32
    }

    /// How many faults the compensations so far met, at most 2^32 - 1. It takes no memory.
    pub fn faults(&self) -> u32
        ensures { result ≡ min (sum_by undo_faults self.now.ended) (2 ^ 32 - 1) }
    {
        let mut faults: u32 = 0;
        for (_, end) in &self.records[self.pending..] {
            faults = faults.saturating_add(faults_of(end));
        }
        faults
    }

    /// Tries the newest record that has no end yet, as `undo_next` does, but none of the first `mark`. It takes no memory.
    pub fn undo_to<H: Host>(&mut self, host: &mut H, tries: u32, mark: u32) -> UndoTurn
        requires tries { 1 ≤ tries }
        requires covered { IsTrue H.model.tells → NextIsCovered (H.model.contents host.old) self.old }
        ensures ended { length self.old.pending ≤ mark → (result ≡ Ended) × (self.new ≡ self.old) × (host.new ≡ host.old) }
        ensures tried { mark < length self.old.pending
            → (t : IsTried H.model tries (record { host = host.old; undo = self.old }) (record { host = host.new; undo = self.new }))
            × (result ≡ turn_of t.end) }
    {
        if self.pending <= mark as usize {
            return UndoTurn::Ended;
        }
        self.undo_next(host, tries)
    }

    /// Drops the records behind the first `mark`, each of which is undone. It takes no memory.
    pub fn forget(&mut self, mark: u32)
        requires above { length self.old.pending ≡ mark }
        requires undone { All (λ e. is_undone e.1 ≡ true) self.old.ended }
        ensures { self.new ≡ record { pending = self.old.pending; ended = [] } }
    {
        self.records.truncate(mark as usize);
        self.hindered = false;
    }

    /// Whether every record has its end.
    pub fn is_undone(&self) -> bool
        ensures { result ≡ (length self.now.pending == 0) }
    {
        self.pending == 0
    }

    /// Every record has its end. It takes no memory.
    pub fn records(self) -> RecordList
        requires { self.pending ≡ [] }
        ensures { result ≡ self.ended }
    {
        Items::from_vec(self.records).trimmed()
    }
}
