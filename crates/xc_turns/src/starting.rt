ghost use Rattle.std.specs.Prelude.{◌≡◌, ℕ, true, [], ◌++◌, ◌+◌, ◌≤◌, length, sum_by};
ghost use Rattle.xc_data.specs.declared.entry.Turn.{Turn};
ghost use Rattle.xc_text.specs.declared.script.Script.{Script};
ghost use Rattle.xc_model.specs.Setting.{Setting};
ghost use Rattle.xc_model.specs.Moment.{TxView, Moment, actives};
ghost use Rattle.xc_model.specs.Holding.{AreApart};
ghost use Rattle.xc_model.specs.Movers.{IsActiveAt};
ghost use Rattle.xc_model.specs.Rows.{IsTurn};
ghost use Rattle.xc_model.specs.Stories.{StoriesHold};
ghost use Rattle.xc_model.specs.Started.{AreStarted, blocks, keeps_start, started_by, start_count};

/// A turn keeps the order of the started jobs: those that are live or have ended, and after them those that active
/// transactions have started. So an entry has room for its own, and where a transaction keeps a start, no other's are among them.
pub fn a_turn_keeps_the_started()
    ensures turn { (s : Setting) (at : ℕ) (old new : Moment) (answer : Turn) → IsTurn s at old answer new
        → StoriesHold s (length old.words) old.marks old.journal old.jobs → AreApart old.jobs → AreStarted s.script old
        → AreStarted s.script new }
    ensures room { (script : Script) (now : Moment) (at : ℕ) (tx : TxView) → AreStarted script now → IsActiveAt now.jobs at tx
        → length now.jobs + start_count tx ≤ 1000 }
    ensures count { (script : Script) (now : Moment) → AreStarted script now
        → length now.started ≡ length now.jobs + sum_by start_count (actives now.jobs) }
    ensures alone { (script : Script) (now : Moment) (at : ℕ) (tx : TxView) → AreStarted script now → AreApart now.jobs
        → IsActiveAt now.jobs at tx → keeps_start tx ≡ true → now.started ≡ blocks now.jobs ++ started_by tx }
    ensures nobody { (script : Script) (now : Moment) → AreStarted script now
        → ((at : ℕ) (tx : TxView) → IsActiveAt now.jobs at tx → started_by tx ≡ []) → now.started ≡ blocks now.jobs }
{}
