ghost use Rattle.std.specs.Prelude.{map, false, ◌≡◌, ◌<◌, ◌≤◌, ◌+◌, ◌++◌, ◌∷◌, [], ℕ, List, IsTrue, All, Contains, None, Some, length};
ghost use Rattle.xc_data.specs.declared.object.Object.{Object};
ghost use Rattle.xc_world.specs.Own.{AgreeOn};
ghost use Rattle.xc_data.specs.declared.call.CallWithAnswer.{CallWithAnswer};
ghost use Rattle.xc_data.specs.declared.claim.Claim.{Claim};
ghost use Rattle.xc_data.specs.declared.call.Call.{Call};
ghost use Rattle.xc_world.specs.Touch.{touch};
ghost use Rattle.xc_world.specs.Modes.{claims_of};
ghost use Rattle.xc_world.specs.Fits.{fits, is_back};
ghost use Rattle.xc_world.specs.Sound.{IsFree, IsReady};
ghost use Rattle.xc_data.specs.Claims.{holding, held_of};
ghost use Rattle.xc_flight.specs.Active.{Tx, Saved, num, Own, Has, HoldTheSame, Running, Committing, Undoing};
ghost use Rattle.xc_flight.specs.Turns.{starting, world_seen, claiming, MayBeGranted, IsOpenFor, FitsOthers, AreIndependent, MayDo};
ghost use Rattle.xc_flight.specs.Turns.{IsNoted, noting_call};
ghost use Rattle.xc_flight.specs.Turns.{went_back, IsWayBack, after_call, in_phase, IsDoneLate, with_end, wanting_memory, with_undone};
ghost use Rattle.xc_flight.specs.Turns.{after_commit, after_abort};
ghost use Rattle.xc_data.specs.declared.entry.KeptItem.{KeptItem};
ghost use Rattle.xc_world.specs.Run.{given_back};
ghost use Rattle.xc_data.specs.declared.undo.Undo.{Undo};
ghost use Rattle.xc_data.specs.declared.undo.UndoEnd.{UndoEnd};
ghost use Rattle.xc_world.specs.Ends.{IsLegalEnd, blocker, with_remains};
ghost use Rattle.xc_world.specs.Effects.{AreMadeIn, undone_to};
ghost use Rattle.xc_data.specs.declared.call.LateCall.{LateCall};
ghost use Rattle.xc_data.specs.declared.call.LateAnswer.{LateAnswer};
ghost use Rattle.xc_world.specs.Late.{late};
ghost use Rattle.xc_data.specs.declared.private.Private.{Private};
ghost use Rattle.xc_flight.specs.Flight.{ran, effects, returned};
ghost use Rattle.xc_flight.specs.State.{FlightState, InFlight, IsActive, active_at, turned, entered, Flies, begun, IsSoundFor};

/// A transaction begins with the next number: it holds nothing, and owns what it will make.
pub fn a_begin_keeps_all()
    ensures { (s : FlightState) (job : ℕ) (began : Private) → InFlight s → job < length s.active → active_at s job ≡ None
        → InFlight (begun s job (starting s.next began)) }
{}

/// Claims that go together keep two transactions apart.
pub fn compatible_claims_are_apart()
    ensures { (t u : Tx) → AreIndependent t u → (o : Object) → Own t o → Has u o → ⊥ }
{}

/// What a call of a running transaction touches no other active one has made, and its number, where
/// it has one, was given.
pub fn a_call_touches_no_new_object_of_another()
    ensures { (s : FlightState) (job : ℕ) (t : Tx) → Flies s job t Running → IsSoundFor s.state t
        → (call : Call) (words : ℕ) (o : Object) → Contains (touch call t.me words) o → IsOpenFor s job o }
{}

/// The claims of a call of a running transaction may be granted where they have no rival.
pub fn claims_without_a_rival_may_be_granted()
    ensures { (s : FlightState) (job : ℕ) (t : Tx) (call : Call) (words : ℕ) → Flies s job t Running → IsSoundFor s.state t
        → All (FitsOthers s job) (claims_of call t.me words) → All (MayBeGranted s job) (claims_of call t.me words) }
{}

/// Claims that are merged into what is held of others hold the same as all of them.
pub fn merged_claims_hold_the_same()
    ensures { (old claims : List Claim) → HoldTheSame (holding (held_of old) claims) (held_of old ++ claims) }
{}

/// Claims that go together with all that others hold may be granted to a running transaction: one
/// that it holds shared becomes exclusive too.
pub fn a_claim_keeps_all()
    ensures { (s : FlightState) (job : ℕ) (t : Tx) (claims held : List Claim) → Flies s job t Running → All (MayBeGranted s job) claims
        → HoldTheSame held (t.held ++ claims) → InFlight (turned s job (Some (claiming t held)) s.now) }
{}

/// What a running transaction has it sees as its body left it.
pub fn what_one_has_it_sees()
    ensures { (s : FlightState) (job : ℕ) (t : Tx) → Flies s job t Running → AgreeOn (Has t) (ran s.state t).world (world_seen s.now t) }
{}

/// No object has a number that a running transaction is still to give.
pub fn what_it_will_make_is_absent()
    ensures { (s : FlightState) (job : ℕ) (t : Tx) → Flies s job t Running → IsSoundFor s.state t
        → (k : ℕ) → t.me.made ≤ k → IsFree s.now (num t.number k) }
{}

/// A call of a running transaction, done by the plain machine in what it sees, keeps all.
pub fn a_call_keeps_all()
    ensures { (s : FlightState) (job : ℕ) (t : Tx) (asked : CallWithAnswer) (writes : List (ℕ × ℕ)) → Flies s job t Running
        → MayDo s.now t asked → IsNoted s.now t asked writes
        → InFlight (turned s job (Some (noting_call s.now t asked writes)) (after_call s.now t asked)) }
{}

/// A call whose claims have no rival, done and noted in one turn, keeps all.
pub fn a_call_with_claims_keeps_all()
    ensures { (s : FlightState) (job : ℕ) (t : Tx) (asked : CallWithAnswer) (held : List Claim) (writes : List (ℕ × ℕ))
        → Flies s job t Running
        → IsSoundFor s.state t → is_back asked.call ≡ false → All (FitsOthers s job) (claims_of asked.call t.me (length s.now.words))
        → HoldTheSame held (t.held ++ claims_of asked.call t.me (length s.now.words))
        → IsTrue (fits (world_seen s.now t) t.me t.number asked.call asked.answer) → IsNoted s.now (claiming t held) asked writes
        → InFlight (turned s job (Some (noting_call s.now (claiming t held) asked writes)) (after_call s.now t asked)) }
{}

/// A call that did its part before memory ran out for its reply turns its transaction back, and
/// keeps all: what it left is undone with the rest.
pub fn a_call_without_memory_keeps_all()
    ensures { (s : FlightState) (job : ℕ) (t : Tx) (asked : CallWithAnswer) → Flies s job t Running
        → MayDo s.now t asked → IsSoundFor s.state t
        → InFlight (turned s job (Some (wanting_memory s.now t asked)) (after_call s.now t asked)) }
{}

/// A commit writes its stores.
pub fn a_commit_keeps_all()
    ensures { (s : FlightState) (job : ℕ) (t : Tx) → Flies s job t Running
        → InFlight (turned s job (Some (in_phase t Committing)) (world_seen s.now t)) }
{}

/// What a late call of a committed transaction needs is in the station's world, whoever holds it.
pub fn a_late_call_is_ready()
    ensures { (s : FlightState) (job : ℕ) (t : Tx) (front rest : List LateCall) (call : LateCall) → Flies s job t Committing
        → IsSoundFor s.state t → t.late ≡ front ++ call ∷ rest → IsReady s.now call }
{}

/// The next late call of a committed transaction, done in the station's world, keeps all.
pub fn a_late_call_keeps_all()
    ensures { (s : FlightState) (job : ℕ) (t : Tx) (call : LateCall) (answer : LateAnswer) → Flies s job t Committing
        → IsDoneLate s.now t call answer
        → InFlight (turned s job (Some (with_end t (late s.now call answer).end)) (late s.now call answer).world) }
{}

/// A committed transaction whose late calls are all done enters: the journal's state is its run's.
pub fn a_commit_enters()
    ensures { (s : FlightState) (job : ℕ) (t : Tx) → Flies s job t Committing → length t.late_ends ≡ length t.late
        → InFlight (entered s job (after_commit s.state t) s.now) }
{}

/// A transaction that turns back leaves the station's world as it is.
pub fn a_turn_back_keeps_all()
    ensures { (s : FlightState) (job : ℕ) (t : Tx) → Flies s job t Running → IsSoundFor s.state t
        → InFlight (turned s job (Some (in_phase t Undoing)) s.now) }
{}

/// A compensation of the newest record without an end keeps all, where on S with what remains it
/// leads to S with what remains then.
pub fn a_compensation_keeps_all()
    ensures { (s : FlightState) (job : ℕ) (t : Tx) (older : List Undo) (u : Undo) (end : UndoEnd) → Flies s job t Undoing
        → IsSoundFor s.state t → t.pending ≡ older ++ u ∷ []
        → undone_to (with_remains s.state (effects t)) u end ≡ with_remains s.state (effects (with_undone t older u end))
        → InFlight (turned s job (Some (with_undone t older u end)) (undone_to s.now u end)) }
{}

/// The records of a transaction were made one after another.
pub fn a_transaction_leaves_records()
    ensures { (s : FlightState) (job : ℕ) (t : Tx) → InFlight s → IsActive s job t → IsSoundFor s.state t
        → AreMadeIn s.state (t.pending ++ map (λ r. r.0) t.ended) }
{}

/// The compensation of the newest of them keeps all, however it ends.
pub fn a_recorded_compensation_keeps_all()
    ensures { (s : FlightState) (job : ℕ) (t : Tx) (older : List Undo) (u : Undo) (end : UndoEnd) → Flies s job t Undoing
        → IsSoundFor s.state t → AreMadeIn s.state (t.pending ++ map (λ r. r.0) t.ended) → t.pending ≡ older ++ u ∷ []
        → (tries : ℕ) → IsLegalEnd tries u end (blocker (length older + 1 + 1) u t.ended)
        → InFlight (turned s job (Some (with_undone t older u end)) (undone_to s.now u end)) }
{}

/// An aborted transaction, each of whose records has its end, gives back what it took and enters: the
/// journal's state is as before, with what remains.
pub fn an_abort_enters()
    ensures { (s : FlightState) (job : ℕ) (t : Tx) → Flies s job t Undoing → IsSoundFor s.state t → t.pending ≡ []
        → InFlight (entered s job (after_abort s.state t) (returned s.now t Undoing)) }
{}

/// A block each of whose records is undone ends its way back: what it took is given back, and its
/// transaction runs on from the save, with the back noted.
pub fn a_way_back_keeps_all()
    ensures { (s : FlightState) (job : ℕ) (t : Tx) (kept : Saved) (back : List KeptItem) (faults : ℕ) → Flies s job t Undoing
        → IsSoundFor s.state t → IsWayBack t kept back
        → InFlight (turned s job (Some (went_back t kept faults)) (given_back s.now back)) }
{}
