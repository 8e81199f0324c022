ghost use Rattle.std.specs.Prelude.{ℕ, ◌<◌};
ghost use Rattle.xc_data.specs.declared.entry.Turn.{Turn};
ghost use Rattle.xc_model.specs.Setting.{Setting};
ghost use Rattle.xc_model.specs.Moment.{Moment};
ghost use Rattle.xc_model.specs.Rows.{IsTurn};
ghost use Rattle.xc_model.specs.Live.{IsScripted};
ghost use Rattle.xc_model.specs.Measure.{turns_left};

/// Each turn is one of a number that the script and the rules fix.
pub fn a_turn_is_one_of_few()
    ensures { (s : Setting) (at : ℕ) (old new : Moment) (answer : Turn) → IsScripted s.script → IsTurn s at old answer new
        → turns_left s new < turns_left s old }
{}
