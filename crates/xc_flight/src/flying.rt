ghost use Rattle.std.specs.Prelude.{Option, ◌≡◌, ◌≤◌, ℕ, None, Some};
ghost use Rattle.xc_data.specs.declared.object.Object.{Object};
ghost use Rattle.xc_world.specs.World.{World};
ghost use Rattle.xc_world.specs.Own.{KeepsBut};
ghost use Rattle.xc_flight.specs.Active.{Tx, Own, Has, num};
ghost use Rattle.xc_world.specs.Sound.{IsFree};
ghost use Rattle.xc_flight.specs.Flight.{Flight};
ghost use Rattle.xc_flight.specs.State.{FlightState, InFlight, Move, active_at, IsActive, turned, job_joined};

/// A move of one transaction, which changes what it owns alone, keeps the flight of every other that
/// has none of this.
pub fn others_fly_on()
    ensures { (w w2 now now2 : World) (t u : Tx) → KeepsBut (Own t) w w2 → KeepsBut (Own t) now now2
        → ((o : Object) → Own t o → Has u o → ⊥) → Flight w now u → Flight w2 now2 u }
{}

/// It keeps what is true of all.
pub fn all_fly_on()
    ensures { (s s2 : FlightState) (job : ℕ) → InFlight s → Move s s2 job → InFlight s2 }
{}

/// A transaction that changes only what it owns, with the same number and the same claims, and has a
/// flight after it, goes on.
pub fn a_step_keeps_all()
    ensures { (s : FlightState) (job : ℕ) (t u : Tx) (now : World) → InFlight s → IsActive s job t → u.number ≡ t.number → u.held ≡ t.held
        → KeepsBut (Own t) s.now now → Flight s.state now u → InFlight (turned s job (Some u) now) }
{}

/// Two turns of one job are one.
pub fn two_turns_are_one()
    ensures { (s : FlightState) (job : ℕ) (t u : Option Tx) (now later : World)
        → turned (turned s job t now) job u later ≡ turned s job u later }
{}

/// Where nobody is active the station's world is the journal's.
pub fn at_rest_all_is_as_the_journal_says()
    ensures { (s : FlightState) → InFlight s → ((job : ℕ) → active_at s job ≡ None) → s.now ≡ s.state }
{}

/// A start: nobody is active, the station's world is the journal's, and no number is given.
pub fn an_opening_is_in_flight()
    ensures { (s : FlightState) → ((job : ℕ) → active_at s job ≡ None) → s.now ≡ s.state
        → ((m k : ℕ) → s.next ≤ m → IsFree s.state (num m k)) → InFlight s }
{}

/// A job more, which has no transaction, changes nothing.
pub fn a_job_more_keeps_all()
    ensures { (s : FlightState) → InFlight s → InFlight (job_joined s) }
{}
