ghost use Rattle.std.specs.Prelude.{◌≡◌, ◌≤◌, ◌+◌, ◌∷◌, ◌++◌, [], ℕ, length, true, false, IfOk, IsSome, OnOk};
ghost use Rattle.xc_data.specs.declared.entry.Cause.{Cause as PlainCause};
ghost use Rattle.xc_world.specs.World.{beginning};
ghost use Rattle.xc_model.specs.declared.phase.Phase.TheVariants as PlainPhase;
ghost use Rattle.xc_model.specs.Entering.{entry_of};
ghost use Rattle.xc_model.specs.IdleRows.{new_tx};
ghost use Rattle.xc_station.specs.Jobs.{begun_of, kept_or, outcome_in, tx_view};
ghost use Rattle.xc_locks.specs.Table.{Holds};
ghost use Rattle.xc_station.specs.Acting.{HasClaimRoom, HasNoteRoom};
ghost use Rattle.xc_station.specs.Backs.{HasSave};
ghost use Rattle.xc_station.specs.Moments.{Frees};

use std::alloc::Global;
use std::mem;
use xc_buffers::Taken;
use xc_compensate::Stack;
use xc_data::{Call, Claim, Entry, NoMemory, Outcome, Private, Reply, Report};
use xc_deferred::Late;
use xc_locks::Holding;
use xc_model::Phase;
use xc_roomy::Roomy;
use xc_sentinel::Sentinels;
use xc_txmem::WriteSet;

/// What an inner block's save keeps of a transaction: its handles, and how many records, notes and late calls it had.
#[derive(Drop)]
pub struct Saved {
    pub me: Box<Private>,
    pub records: u32,
    pub taken: u32,
    pub late: u32,
}

/// A job's transaction, with what its entry will say. It lies in its job for all of the job's transactions, and with it
/// the job's handles: no begin and no end copies them. These have places of their
/// own, and what a call on a word reads lies together, so that a turn loads little of each job.
///
/// 256 handles are 4 KiB: inside the job they would keep what each turn reads of many jobs far apart.
#[derive(Drop)]
pub struct Tx {
    pub writes: WriteSet,
    pub calls: Roomy<Call>,
    pub replies: Roomy<Reply>,
    pub held: Holding,
    pub me: Box<Private>,
    pub number: u32,
    /// The number of the first attempt at it.
    pub rank: u32,
    /// The length that the journal had when it began.
    pub began: u32,
    /// Whether a call may have changed the handles since the start.
    pub changed: bool,
    pub phase: Phase,
    /// What its calls did at the host.
    pub undo: Stack,
    /// What it keeps for its commit, and how that ended.
    pub late: Late,
    /// What its calls took from pipes and pairs.
    pub taken: Taken,
    /// The handles of the start, where one may have. Their place is made when the first call of the job may change one.
    pub begun: Option<Box<Private>>,
    /// In an open block what its save kept; the stores keep their own.
    pub saved: Option<Saved>,
}

// The outcome of a transaction that ends in this phase, with the ends of its records or of its late calls. Records that
// aren't reported stay.
fn outcome_of(alloc: Global, phase: &Phase, undo: &mut Stack, late: Late) -> Outcome
    requires { (c : PlainCause) → phase.now ≡ PlainPhase.Undoing c → undo.old.pending ≡ [] }
    ensures { result ≡ outcome_in phase.now undo.old.ended late.ends }
{
    match phase {
        Phase::Undoing(cause) => Outcome::Aborted(Report {
            cause: cause.again(),
            records: mem::replace(undo, Stack::new(alloc)).records(),
        }),
        // Only an undoing one aborts.
        _ => Outcome::Committed {
            late: late.into_ends(),
        },
    }
}

impl Tx {
    /// That of a job which has begun none yet, with these handles.
    pub fn new(alloc: Global, me: &Private) -> Result<Tx, NoMemory>
        ensures { IfOk result (λ tx. begun_of tx ≡ me.now) }
    {
        Ok(Tx {
            number: 0,
            rank: 0,
            began: 0,
            phase: Phase::Running,
            me: Box::new(alloc, *me)?,
            changed: false,
            begun: None,
            saved: None,
            writes: WriteSet::new(alloc),
            undo: Stack::new(alloc),
            late: Late::new(alloc),
            taken: Taken::new(alloc),
            calls: Roomy::new(alloc),
            replies: Roomy::new(alloc),
            held: Holding::new(alloc),
        })
    }

    // The handles are those that were kept, if any were.
    fn take_handles_back(&mut self)
        ensures me { self.new.me.value ≡ kept_or self.old.me.value self.old.begun }
        ensures rest { self.new ≡ record self.old { me = self.new.me; begun = self.new.begun } }
    {
        if let Some(begun) = &mut self.begun {
            mem::swap(&mut self.me, begun);
        }
    }

    /// Begins the next transaction, with the handles of the last one's end: those of its start, where it was aborted. It
    /// has done nothing yet. It takes no memory.
    pub fn begin(&mut self, alloc: Global, number: u32, rank: u32, began: u32)
        ensures tx { tx_view self.new ≡ new_tx number rank began (begun_of self.old) }
        ensures begun { begun_of self.new ≡ begun_of self.old }
    {
        self.number = number;
        self.rank = rank;
        self.began = began;
        self.phase = Phase::Running;
        if self.changed {
            self.take_handles_back();
        }
        self.changed = false;
        self.saved = None;
        self.writes.clear();
        self.undo.clear();
        self.late = Late::new(alloc);
        self.taken = Taken::new(alloc);
        self.calls = Roomy::new(alloc);
        self.replies = Roomy::new(alloc);
        self.held = Holding::new(alloc);
    }

    /// Keeps the handles of the start, before a call changes one. Only the first time it takes memory; without it nothing is kept.
    pub fn keep(&mut self, alloc: Global) -> Result<(), NoMemory>
        ensures tx { tx_view self.new ≡ tx_view self.old }
        ensures begun { begun_of self.new ≡ begun_of self.old }
        ensures changed { OnOk result (self.new.changed ≡ true) }
        ensures kept { OnOk result (IsSome self.new.begun) }
        ensures save { (self.new.saved ≡ self.old.saved) × (self.new.writes.saved ≡ self.old.writes.saved) }
        ensures notes { (self.new.calls ≡ self.old.calls) × (self.new.replies ≡ self.old.replies) }
    {
        match &mut self.begun {
            Some(begun) => {
                if !self.changed {
                    **begun = *self.me;
                }
            }
            None => self.begun = Some(Box::new(alloc, *self.me)?),
        }
        self.changed = true;
        Ok(())
    }

    /// The next transaction begins with the handles as they are, and with nothing made or stored.
    pub fn renew(&mut self)
        ensures { self.new ≡ record self.old { changed = false; me = record self.old.me { value = beginning self.old.me.value.places } } }
    {
        self.me.made = 0;
        self.me.stored = 0;
        self.changed = false;
    }

    // Room for `calls` calls with their replies, each on an object of its own. A list that has its room at once need not grow.
    fn make_room(&mut self, calls: u32) -> Result<(), NoMemory>
        ensures same { tx_view self.new ≡ tx_view self.old }
        ensures begun { begun_of self.new ≡ begun_of self.old }
        ensures save { HasSave self.old self.old.saved → HasSave self.new self.new.saved }
    {
        self.calls.reserve(calls)?;
        self.replies.reserve(calls)?;
        self.held.make_room(calls)
    }

    /// Makes room for one call, its reply and its claims; before the first call, for as many as the transaction may have.
    pub fn room(&mut self, claims: &[Claim], most: u32) -> Result<(), NoMemory>
        requires { length claims.now ≤ 2 }
        ensures ok { OnOk result (HasClaimRoom self.new claims.now) }
        ensures same { tx_view self.new ≡ tx_view self.old }
        ensures begun { begun_of self.new ≡ begun_of self.old }
        ensures save { HasSave self.old self.old.saved → HasSave self.new self.new.saved }
    {
        if self.calls.is_empty() {
            self.make_room(most)?;
        }
        self.note_room()?;
        self.held.reserve(claims)
    }

    /// Makes room for the note of one call.
    #[inline(always)]
    pub fn note_room(&mut self) -> Result<(), NoMemory>
        ensures ok { OnOk result (HasNoteRoom self.new) }
        ensures same { tx_view self.new ≡ tx_view self.old }
        ensures held { self.new.held ≡ self.old.held }
        ensures begun { begun_of self.new ≡ begun_of self.old }
        ensures save { HasSave self.old self.old.saved → HasSave self.new self.new.saved }
    {
        self.calls.reserve(1)?;
        self.replies.reserve(1)
    }

    /// Notes a call with its reply, into the room for them. It takes no memory.
    pub fn note(&mut self, call: Call, reply: Reply)
        requires room { HasNoteRoom self.old }
        ensures noted { tx_view self.new ≡ record (tx_view self.old) {
          calls = self.old.calls.items ++ call ∷ [];
          replies = self.old.replies.items ++ reply ∷ [];
        } }
        ensures begun { begun_of self.new ≡ begun_of self.old }
        ensures save { HasSave self.old self.old.saved → HasSave self.new self.new.saved }
    {
        self.calls.enter(call);
        self.replies.enter(reply);
    }

    /// The entry of the job of this number: a commit's, or that of an abort whose records have their ends. It holds nothing
    /// from then on, and is no longer active. It takes no memory.
    pub fn close(&mut self, alloc: Global, job: u32, sentinels: &mut Sentinels) -> Entry
        requires undone { (c : PlainCause) → self.old.phase ≡ PlainPhase.Undoing c → self.old.undo.pending ≡ [] }
        requires table { Holds sentinels.old.claims self.old.number self.old.held.items }
        ensures entry { (at : ℕ) → job ≡ at + 1
            → result ≡ entry_of (tx_view self.old) at (outcome_in self.old.phase self.old.undo.ended self.old.late.ends) }
        ensures begun { begun_of self.new ≡ begun_of self.old }
        ensures freed { Frees sentinels.old sentinels.new self.old.number }
    {
        let late = mem::replace(&mut self.late, Late::new(alloc));
        let held = mem::replace(&mut self.held, Holding::new(alloc));
        let outcome = outcome_of(alloc, &self.phase, &mut self.undo, late);
        self.saved = None;
        self.undo.clear();
        self.writes.clear();
        Entry {
            tx: self.number,
            job,
            rank: self.rank,
            began: self.began,
            calls: mem::replace(&mut self.calls, Roomy::new(alloc)).into_items(),
            replies: mem::replace(&mut self.replies, Roomy::new(alloc)).into_items(),
            held: sentinels.end(self.number, held),
            outcome,
        }
    }
}
