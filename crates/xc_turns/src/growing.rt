ghost use Rattle.std.specs.Prelude.{◌≡◌, ℕ, ◌++◌, List};
ghost use Rattle.xc_data.specs.declared.entry.Entry.{Entry};
ghost use Rattle.xc_data.specs.declared.entry.Turn.{Turn};
ghost use Rattle.xc_model.specs.Setting.{Setting};
ghost use Rattle.xc_model.specs.Moment.{Moment};
ghost use Rattle.xc_model.specs.Rows.{IsTurn};

/// What a journal says stays: each turn leaves it in front of the new one.
pub fn a_turn_goes_on_with_the_journal()
    ensures { (s : Setting) (at : ℕ) (old new : Moment) (answer : Turn) → IsTurn s at old answer new
        → (more : List Entry) × (new.journal ≡ old.journal ++ more) }
{}
