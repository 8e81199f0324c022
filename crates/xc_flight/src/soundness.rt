ghost use Rattle.xc_world.specs.Sound.{IsFit};
ghost use Rattle.std.specs.Prelude.{◌≡◌, ◌<◌, ℕ, List, map, Some, length};
ghost use Rattle.xc_world.specs.World.{World, beginning, no_handles};
ghost use Rattle.xc_data.specs.declared.private.Place.{Place};
ghost use Rattle.xc_flight.specs.Active.{Tx, Committing, Undoing};
ghost use Rattle.xc_flight.specs.Turns.{starting, after_commit, after_abort};
ghost use Rattle.xc_world.specs.Effects.{AreMadeIn};
ghost use Rattle.xc_flight.specs.State.{IsSoundFor, FlightState, InFlight, IsActive, AreSound, IsIdleSound, turned, entered, Flies, begun};

/// A turn of an active transaction keeps all sound.
pub fn a_step_keeps_all_sound()
    ensures { (s : FlightState) (job : ℕ) (t u : Tx) (now : World) → AreSound s → IsActive s job t → u.number ≡ t.number → u.began ≡ t.began
        → AreSound (turned s job (Some u) now) }
{}

/// A job without a handle may begin its first transaction in a world that is fit.
pub fn a_job_without_handles_is_sound()
    ensures { (s : FlightState) → InFlight s → IsFit s.state → IsIdleSound s.state s.next no_handles }
{}

/// A begin does, where the job's handles are sound.
pub fn a_begin_keeps_all_sound()
    ensures { (s : FlightState) (job : ℕ) (places : List Place) → AreSound s → job < length s.active → IsIdleSound s.state s.next places
        → AreSound (begun s job (starting s.next (beginning places))) }
{}

/// The entry of a commit keeps the journal's state sound for every active transaction.
pub fn a_commit_keeps_others_sound()
    ensures { (s : FlightState) (job : ℕ) (t : Tx) (now : World) → Flies s job t Committing → AreSound s
        → AreSound (entered s job (after_commit s.state t) now) }
{}

/// And for every job that has none.
pub fn a_commit_keeps_idle_jobs_sound()
    ensures { (s : FlightState) (job : ℕ) (t : Tx) (places : List Place) → Flies s job t Committing → AreSound s
        → IsIdleSound s.state s.next places → IsIdleSound (after_commit s.state t) s.next places }
{}

/// And its own job may begin its next one, with the handles that it has.
pub fn a_commit_leaves_its_job_sound()
    ensures { (s : FlightState) (job : ℕ) (t : Tx) (now : World) → Flies s job t Committing → AreSound s
        → InFlight (entered s job (after_commit s.state t) now)
        → IsIdleSound (after_commit s.state t) s.next t.me.places }
{}

/// The entry of an abort keeps the journal's state sound for every active transaction, whatever
/// remains of its records.
pub fn an_abort_keeps_others_sound()
    ensures { (s : FlightState) (job : ℕ) (t : Tx) (now : World) → Flies s job t Undoing → AreSound s
        → AreMadeIn s.state (map (λ r. r.0) t.ended)
        → AreSound (entered s job (after_abort s.state t) now) }
{}

/// And every job that has none may begin its next one.
pub fn an_abort_keeps_idle_jobs_sound()
    ensures { (s : FlightState) (job : ℕ) (t : Tx) (places : List Place) → Flies s job t Undoing
        → AreMadeIn s.state (map (λ r. r.0) t.ended) → IsIdleSound s.state s.next places
        → IsIdleSound (after_abort s.state t) s.next places }
{}

/// And its own job may begin its next one, with the handles that it had.
pub fn an_abort_leaves_its_job_sound()
    ensures { (s : FlightState) (job : ℕ) (t : Tx) (now : World) → IsSoundFor s.state t → AreMadeIn s.state (map (λ r. r.0) t.ended)
        → InFlight (entered s job (after_abort s.state t) now) → IsIdleSound (after_abort s.state t) s.next t.began.places }
{}
