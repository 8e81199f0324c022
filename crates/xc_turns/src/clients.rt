ghost use Rattle.std.specs.Prelude.{ℕ};
ghost use Rattle.xc_script.specs.declared.ask.Ask.{Ask};
ghost use Rattle.xc_model.specs.Setting.{Setting};
ghost use Rattle.xc_model.specs.Moment.{Moment};
ghost use Rattle.xc_model.specs.Alone.{AreAlone};
ghost use Rattle.xc_model.specs.Consistent.{IsConsistent};
ghost use Rattle.xc_model.specs.HandedIn.{IsHandedIn};

/// What a client hands in keeps what is true between two turns, over every host: its transaction wanted nothing before, so no mark and
/// no entry rests on that. And where one job alone goes on, it goes on alone.
pub fn what_is_handed_in_keeps_all()
    ensures kept { (s : Setting) (faults at : ℕ) (asked : Ask) (old new : Moment) → IsHandedIn s at asked old new
        → IsConsistent s faults old → IsConsistent s faults new }
    ensures alone { (s : Setting) (at job : ℕ) (asked : Ask) (old new : Moment) → IsHandedIn s at asked old new
        → AreAlone old job → AreAlone new job }
{}
