ghost use Rattle.std.specs.Prelude.{ℕ, List, length};
ghost use Rattle.xc_data.specs.declared.entry.Turn.{Turn};
ghost use Rattle.xc_script.specs.declared.ask.Ask.{Ask};
ghost use Rattle.xc_model.specs.Setting.{Setting};
ghost use Rattle.xc_model.specs.Moment.{Moment};
ghost use Rattle.xc_model.specs.Movers.{asked_at};
ghost use Rattle.xc_model.specs.Rows.{IsTurn, lasts_behind};
ghost use Rattle.xc_model.specs.Stories.{StoriesHold};
ghost use Rattle.xc_model.specs.Handling.{HandlesAgree};

/// A turn keeps what calls and replies fix of private states: each call is refused exactly where a private check refuses it, and the
/// handles are those of the replies, over every host. So it keeps which calls of the host were made: those of the entries and of the
/// active transactions, and no other.
pub fn a_turn_keeps_the_handles()
    ensures { (s : Setting) (at : ℕ) (old new : Moment) (answer : Turn) (lasts : List Ask) → (turned : IsTurn s at old answer new)
        → StoriesHold s (length old.words) old.marks old.journal old.jobs → HandlesAgree s lasts old.journal old.jobs old.calls
        → HandlesAgree s (lasts_behind (asked_at s turned.job) old.journal new.journal lasts) new.journal new.jobs new.calls }
{}
