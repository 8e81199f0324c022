ghost use Rattle.std.specs.Prelude.{ℕ};
ghost use Rattle.xc_data.specs.declared.entry.Turn.{Turn};
ghost use Rattle.xc_model.specs.Setting.{Setting};
ghost use Rattle.xc_model.specs.Moment.{Moment};
ghost use Rattle.xc_model.specs.Rows.{IsTurn};
ghost use Rattle.xc_model.specs.Holding.{AreApart};

/// A turn keeps what active transactions hold apart.
pub fn a_turn_keeps_claims_apart()
    ensures { (s : Setting) (at : ℕ) (old new : Moment) (answer : Turn) → IsTurn s at old answer new → AreApart old.jobs
        → AreApart new.jobs }
{}
