ghost use Rattle.std.specs.Prelude.{ℕ};
ghost use Rattle.xc_data.specs.declared.entry.Turn.{Turn};
ghost use Rattle.xc_model.specs.Setting.{Setting};
ghost use Rattle.xc_model.specs.Progress.{progress_of};
ghost use Rattle.xc_model.specs.Moment.{Moment};
ghost use Rattle.xc_model.specs.Rows.{IsTurn};
ghost use Rattle.xc_model.specs.Holding.{AreApart};
ghost use Rattle.xc_model.specs.Words.{WordsAgree};

/// A turn keeps the words those that the calls and the commits made, over every host.
pub fn a_turn_keeps_the_words()
    ensures { (s : Setting) (at : ℕ) (old new : Moment) (answer : Turn) → IsTurn s at old answer new → AreApart old.jobs
        → WordsAgree (progress_of s.script old.journal).words old.words old.jobs
        → WordsAgree (progress_of s.script new.journal).words new.words new.jobs }
{}
