ghost use Rattle.std.specs.Prelude.{◌≡◌, ℕ, ◌≤◌, length, IsTrue};
ghost use Rattle.xc_data.specs.declared.entry.Turn.{Turn};
ghost use Rattle.xc_model.specs.Setting.{Setting};
ghost use Rattle.xc_model.specs.Progress.{opening_progress, progress_of};
ghost use Rattle.xc_model.specs.Ending.{HaveAttemptsLeft};
ghost use Rattle.xc_model.specs.Moment.{TxView, Moment};
ghost use Rattle.xc_model.specs.Rows.{IsTurn, lasts_behind};
ghost use Rattle.xc_model.specs.Movers.{IsActiveAt, asked_at};
ghost use Rattle.xc_model.specs.Patience.{NoneIsRevoked};
ghost use Rattle.xc_model.specs.Stories.{StoriesHold};
ghost use Rattle.xc_model.specs.Played.{IsPlayedSoFar};
ghost use Rattle.xc_model.specs.Started.{AreStarted};
ghost use Rattle.xc_model.specs.Words.{WordsAgree};
ghost use Rattle.xc_model.specs.Consistent.{IsConsistent};
ghost use Rattle.xc_model.specs.Opened.{IsOpening};

/// A start keeps what is true between two turns.
pub fn a_start_is_kept()
    ensures { (s : Setting) (now : Moment) → length s.script.outline.jobs ≤ 1000 → IsOpening s.script now → IsConsistent s now.faults now }
{}

/// A turn keeps the stories of all jobs: the journal is true so far, and of what enters its job's ask is kept. Over a host that tells,
/// what enters was played.
pub fn a_turn_keeps_the_stories()
    ensures { (s : Setting) (at : ℕ) (old new : Moment) (answer : Turn) → (turned : IsTurn s at old answer new)
        → WordsAgree (progress_of s.script old.journal).words old.words old.jobs
        → (IsTrue s.tells → (tx : TxView) → (is : IsActiveAt old.jobs at tx)
        → IsPlayedSoFar (asked_at s is.0) (length old.words) (progress_of s.script old.journal) at tx)
        → AreStarted s.script old → (told : StoriesHold s (length old.words) old.marks old.journal old.jobs)
        → (now : StoriesHold s (length new.words) new.marks new.journal new.jobs)
        × (now.lasts ≡ lasts_behind (asked_at s turned.job) old.journal new.journal told.lasts) }
{}

/// What enters in a turn was an attempt that was left.
pub fn a_turn_keeps_to_the_attempts()
    ensures { (s : Setting) (at : ℕ) (old new : Moment) (answer : Turn) → IsTurn s at old answer new
        → StoriesHold s (length old.words) old.marks old.journal old.jobs → HaveAttemptsLeft s (opening_progress s.script) old.journal
        → HaveAttemptsLeft s (opening_progress s.script) new.journal }
{}

/// Where no job may wait, a turn revokes nothing.
pub fn a_turn_revokes_none_without_patience()
    ensures { (s : Setting) (at : ℕ) (old new : Moment) (answer : Turn) → IsTurn s at old answer new → s.rules.patience ≡ 0
        → NoneIsRevoked old → NoneIsRevoked new }
{}
