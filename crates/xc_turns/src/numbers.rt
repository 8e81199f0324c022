ghost use Rattle.std.specs.Prelude.{◌≡◌, ℕ, ◌+◌, ◌≤◌, List, length, Option};
ghost use Rattle.xc_data.specs.declared.entry.Entry.{Entry};
ghost use Rattle.xc_data.specs.declared.entry.Mark.{Mark};
ghost use Rattle.xc_model.specs.Setting.{Setting};
ghost use Rattle.xc_model.specs.Moment.{TxView, JobView, actives};
ghost use Rattle.xc_model.specs.Movers.{IsActiveAt};
ghost use Rattle.xc_model.specs.Stories.{StoriesHold};

/// An active transaction's number is that of no other one, and one of as many as have begun.
pub fn each_number_is_given_once()
    ensures once { (s : Setting) (words : ℕ) (marks : ℕ → Option Mark) (journal : List Entry) (jobs : List JobView)
        → StoriesHold s words marks journal jobs
        → (i j : ℕ) (t u : TxView) → IsActiveAt jobs i t → IsActiveAt jobs j u → t.number ≡ u.number → i ≡ j }
    ensures begun { (s : Setting) (words : ℕ) (marks : ℕ → Option Mark) (journal : List Entry) (jobs : List JobView)
        → StoriesHold s words marks journal jobs
        → (i : ℕ) (t : TxView) → IsActiveAt jobs i t → (1 ≤ t.number) × (t.number ≤ length journal + length (actives jobs)) }
{}
