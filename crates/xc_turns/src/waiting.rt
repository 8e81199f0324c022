ghost use Rattle.std.specs.Prelude.{◌≡◌, ◌≢◌, ◌⊎◌, ℕ, ◌+◌, ◌<◌, length, slice_get};
ghost use Rattle.std.specs.declared.option.Option.TheVariants.{Some};
ghost use Rattle.xc_data.specs.declared.entry.Turn.{Turn};
ghost use Rattle.xc_data.specs.declared.entry.Turn.TheVariants as turn;
ghost use Rattle.xc_data.specs.declared.object.Object.{Object};
ghost use Rattle.xc_data.specs.declared.entry.Mark.{Mark};
ghost use Rattle.xc_model.specs.Setting.{Setting};
ghost use Rattle.xc_model.specs.Moment.{JobView, Moment};
ghost use Rattle.xc_model.specs.Rows.{IsTurn};
ghost use Rattle.xc_model.specs.Waiting.{CountsOn, IsMarkedBy, MayWait};

/// A job waits for the transaction that ended its last attempt, or its transaction for a younger one; and a transaction is
/// marked only by an older one that waits for it.
pub fn an_older_one_waits_for_a_younger()
    ensures waits { (s : Setting) (at : ℕ) (old new : Moment) (object : Object) (number : ℕ)
        → IsTurn s at old (turn.Busy object number) new → MayWait s at old object number }
    ensures counts { (s : Setting) (at : ℕ) (old new : Moment) (object : Object) (number : ℕ)
        → IsTurn s at old (turn.Busy object number) new
        → (job is : JobView) → slice_get old.jobs at ≡ Some job → slice_get new.jobs at ≡ Some is → is.busy ≡ job.busy + 1 }
    ensures kept { (s : Setting) (at : ℕ) (old new : Moment) (answer : Turn) → IsTurn s at old answer new
        → ((object : Object) (number : ℕ) → answer ≢ turn.Busy object number)
        → (job is : JobView) → slice_get old.jobs at ≡ Some job → slice_get new.jobs at ≡ Some is → CountsOn job is }
    ensures others { (s : Setting) (at j : ℕ) (old new : Moment) (answer : Turn) → IsTurn s at old answer new → j ≢ at → j < length old.jobs
        → slice_get new.jobs j ≡ slice_get old.jobs j }
    ensures marks { (s : Setting) (at : ℕ) (old new : Moment) (answer : Turn) (number : ℕ) (m : Mark) → IsTurn s at old answer new
        → new.marks number ≡ Some m → (old.marks number ≡ Some m) ⊎ IsMarkedBy at old answer number m }
{}
