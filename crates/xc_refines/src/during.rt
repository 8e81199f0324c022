ghost use Rattle.std.specs.Prelude.{◌≡◌, ℕ, ◌≤◌, [], ◌∷◌, ◌++◌, false, List, length, map, All, Contains};
ghost use Rattle.xc_data.specs.Private.{place_of};
ghost use Rattle.xc_data.specs.declared.call.LateCall.{LateCall};
ghost use Rattle.xc_data.specs.declared.entry.Cause.{Cause};
ghost use Rattle.xc_data.specs.declared.entry.JobLine.{JobLine};
ghost use Rattle.xc_compensate.specs.Records.{NextIsCovered};
ghost use Rattle.xc_host.specs.Contents.{has_file, world_of};
ghost use Rattle.xc_data.specs.Claims.{objects, owned};
ghost use Rattle.xc_data.specs.declared.object.Object.TheVariants as object;
ghost use Rattle.xc_model.specs.LateCalls.{started_late};
ghost use Rattle.xc_data.specs.declared.call.Call.{Call};
ghost use Rattle.xc_data.specs.declared.undo.Undo.{Undo};
ghost use Rattle.xc_world.specs.Run.{item_object};
ghost use Rattle.xc_world.specs.Sound.{IsFree, IsKnown};
ghost use Rattle.xc_world.specs.Touch.{object_at};
ghost use Rattle.xc_file.specs.Checks.{IsOpenIn};
ghost use Rattle.xc_model.specs.declared.phase.Phase.TheVariants.{Committing, Running, Undoing};
ghost use Rattle.xc_model.specs.Setting.{Setting};
ghost use Rattle.xc_model.specs.Progress.{progress_of};
ghost use Rattle.xc_model.specs.Moment.{TxView, JobView, Moment, late_left};
ghost use Rattle.xc_model.specs.Rivals.{HasNoRival};
ghost use Rattle.xc_model.specs.Movers.{IsActiveAt, asked_at};
ghost use Rattle.xc_model.specs.PlainSteps.{claims_at};
ghost use Rattle.xc_model.specs.Stories.{StoriesHold};
ghost use Rattle.xc_model.specs.Consistent.{AreLinesOf};
ghost use Rattle.xc_model.specs.Ending.{IsFinalState};
ghost use Rattle.xc_model.specs.Played.{IsPlayedSoFar};
ghost use Rattle.xc_data.specs.Remaining.{objects_of};
ghost use Rattle.xc_data.specs.declared.entry.KeptItem.{KeptItem};
ghost use Rattle.xc_refines.specs.InFlight.{AreInFlight, IsEmptyNew, state_of};
ghost use Rattle.xc_deferred.specs.Does.{IsThereFor};

/// What an active transaction noted is what the plain machine's body gives in the world that the journal left.
pub fn what_is_noted_was_played()
    ensures { (s : Setting) (now : Moment) (at : ℕ) (tx : TxView) → StoriesHold s (length now.words) now.marks now.journal now.jobs
        → AreInFlight s now
        → (is : IsActiveAt now.jobs at tx)
        → IsPlayedSoFar (asked_at s is.0) (length now.words) (progress_of s.script now.journal) at tx }
{}

/// The files that a running transaction has open are there, within their limit, whoever holds them.
pub fn open_files_are_there()
    ensures { (s : Setting) (now : Moment) (at : ℕ) (tx : TxView) (h : ℕ) → StoriesHold s (length now.words) now.marks now.journal now.jobs
        → AreInFlight s now
        → IsActiveAt now.jobs at tx → tx.phase ≡ Running → IsOpenIn now.contents (place_of tx.me.places h) }
{}

/// No file at the host has a number that a running transaction has still to give.
pub fn what_it_will_make_is_absent()
    ensures { (s : Setting) (now : Moment) (at : ℕ) (tx : TxView) (k : ℕ) → StoriesHold s (length now.words) now.marks now.journal now.jobs
        → AreInFlight s now
        → IsActiveAt now.jobs at tx → tx.phase ≡ Running → tx.me.made ≤ k
        → has_file now.contents (record { tx = tx.number; k = k }) ≡ false }
{}

/// Nothing at the host, and nothing kept, has a number that a running transaction has still to give.
pub fn nothing_has_a_number_that_it_will_give()
    ensures { (s : Setting) (now : Moment) (at : ℕ) (tx : TxView) (k : ℕ) → AreInFlight s now → IsActiveAt now.jobs at tx
        → tx.phase ≡ Running → tx.me.made ≤ k
        → IsFree (world_of now.contents) (record { tx = tx.number; k = k }) }
{}

/// Where nobody holds against a call of a running transaction what it claims, the object of its handle is there.
pub fn what_a_call_claims_is_there()
    ensures { (s : Setting) (now : Moment) (at : ℕ) (tx : TxView) (call : Call) (h : ℕ) → AreInFlight s now → IsActiveAt now.jobs at tx
        → tx.phase ≡ Running
        → All (HasNoRival now.jobs at) (claims_at now tx call)
        → All (Contains (objects (claims_at now tx call))) (object_at (place_of tx.me.places h))
        → IsKnown (world_of now.contents) (place_of tx.me.places h) }
{}

/// A pipe or a pair that the newest record without an end made is empty, with what is kept in front of it.
pub fn what_it_made_is_empty()
    ensures { (s : Setting) (now : Moment) (at : ℕ) (tx : TxView) (c : Cause) (older : List Undo) (u : Undo) → AreInFlight s now
        → IsActiveAt now.jobs at tx
        → tx.phase ≡ Undoing c → tx.undo.pending ≡ older ++ u ∷ [] → IsEmptyNew (world_of now.contents) u }
{}

/// No active transaction has taken data from what the newest record without an end speaks of.
pub fn nobody_took_from_what_is_undone()
    ensures { (s : Setting) (now : Moment) (at j : ℕ) (tx other : TxView) (c : Cause) (older : List Undo) (u : Undo) (k : KeptItem)
        → AreInFlight s now
        → IsActiveAt now.jobs at tx → tx.phase ≡ Undoing c → tx.undo.pending ≡ older ++ u ∷ [] → IsActiveAt now.jobs j other
        → Contains other.taken k → Contains (objects_of u) (item_object k) → ⊥ }
{}

/// What the newest record without an end of an undoing transaction tells of is at the host as the record left it, if
/// nothing blocks it.
pub fn the_next_record_is_covered()
    ensures { (s : Setting) (now : Moment) (at : ℕ) (tx : TxView) (c : Cause)
        → StoriesHold s (length now.words) now.marks now.journal now.jobs
        → AreInFlight s now → IsActiveAt now.jobs at tx → tx.phase ≡ Undoing c → NextIsCovered now.contents tx.undo }
{}

/// What the next late call of a committing transaction needs is at the host, whoever holds it.
pub fn the_next_late_call_finds_its_object()
    ensures { (s : Setting) (now : Moment) (at : ℕ) (tx : TxView) (call : LateCall) (calls : List LateCall)
        → StoriesHold s (length now.words) now.marks now.journal now.jobs → AreInFlight s now → IsActiveAt now.jobs at tx
        → tx.phase ≡ Committing
        → late_left tx ≡ call ∷ calls → IsThereFor now.contents call }
{}

/// The started jobs are those that are live or have ended, and after them those that the holder of the jobs has started.
pub fn the_holder_of_the_jobs_starts_them()
    ensures holder { (s : Setting) (now : Moment) (at : ℕ) (tx : TxView) → AreInFlight s now → IsActiveAt now.jobs at tx
        → Contains (owned tx.held) object.Jobs → now.started ≡ map (λ (x : JobView). x.block) now.jobs ++ started_late tx.late tx.ends }
    ensures nobody { (s : Setting) (now : Moment) → AreInFlight s now
        → ((at : ℕ) (tx : TxView) → IsActiveAt now.jobs at tx → Contains (owned tx.held) object.Jobs → ⊥)
        → now.started ≡ map (λ (x : JobView). x.block) now.jobs }
{}

/// Where each job has ended, the words, the host's contents and the started jobs are those that the journal leads to.
pub fn where_all_have_ended_all_is_as_the_journal_says()
    ensures { (s : Setting) (now : Moment) (lines : List JobLine) → AreInFlight s now → AreLinesOf now.jobs lines
        → IsFinalState (state_of s now) (record { words = now.words; contents = now.contents; lines = lines }) }
{}
