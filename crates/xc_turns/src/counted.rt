ghost use Rattle.std.specs.Prelude.{ℕ, length};
ghost use Rattle.xc_data.specs.declared.entry.Turn.{Turn};
ghost use Rattle.xc_model.specs.Setting.{Setting};
ghost use Rattle.xc_model.specs.Moment.{Moment};
ghost use Rattle.xc_model.specs.Rows.{IsTurn};
ghost use Rattle.xc_model.specs.Stories.{StoriesHold};
ghost use Rattle.xc_model.specs.Counted.{AreCounted};

/// A turn keeps the count of the host's faults that of the recorded ones.
pub fn a_turn_keeps_the_count()
    ensures { (s : Setting) (at before : ℕ) (old new : Moment) (answer : Turn) → IsTurn s at old answer new
        → StoriesHold s (length old.words) old.marks old.journal old.jobs → AreCounted before old → AreCounted before new }
{}
