ghost use Rattle.std.specs.Prelude.{◌≡◌, ℕ, IsTrue};
ghost use Rattle.xc_data.specs.declared.entry.Turn.{Turn};
ghost use Rattle.xc_data.specs.Limits.{KeepsLimits};
ghost use Rattle.xc_host.specs.Contents.{opened};
ghost use Rattle.xc_model.specs.Setting.{Setting};
ghost use Rattle.xc_script.specs.declared.ask.Ask.{Ask};
ghost use Rattle.xc_model.specs.Moment.{Moment};
ghost use Rattle.xc_model.specs.HandedIn.{IsHandedIn};
ghost use Rattle.xc_model.specs.Rows.{IsTurn};
ghost use Rattle.xc_model.specs.Consistent.{IsSet, IsConsistent};
ghost use Rattle.xc_model.specs.Opened.{IsOpening};
ghost use Rattle.xc_refines.specs.InFlight.{AreInFlight};

/// At a start, over a host with exactly the script's objects, nobody is active, and all is the plain machine's.
pub fn a_start_flies()
    ensures { (s : Setting) (now : Moment) → IsSet s → KeepsLimits s.script.outline → IsOpening s.script now
        → now.contents ≡ opened s.script.outline.prologue.objects → AreInFlight s now }
{}

/// A turn of one job keeps the flights of all.
pub fn a_turn_keeps_all_flying()
    ensures { (s : Setting) (at faults : ℕ) (old new : Moment) (answer : Turn) → IsSet s → IsTrue s.tells → IsTurn s at old answer new
        → IsConsistent s faults old → AreInFlight s old → AreInFlight s new }
{}

/// What a client hands in keeps the flights of all.
pub fn what_is_handed_in_keeps_all_flying()
    ensures { (s : Setting) (at : ℕ) (asked : Ask) (old new : Moment) → IsHandedIn s at asked old new → AreInFlight s old
        → AreInFlight s new }
{}
