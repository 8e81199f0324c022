ghost use Rattle.std.specs.Prelude.{◌≡◌, ◌≢◌, ◌<◌, ◌+◌, ◌^◌, ℕ, IfOk};
ghost use Rattle.xc_judge.specs.Judged.{IsOpenTo, telling_terms};
ghost use Rattle.xc_judge.specs.Ran.{IsKept};
ghost use Rattle.xc_model.specs.Course.{after_course};
ghost use Rattle.xc_model.specs.Machine.{IsMachineTrue};
ghost use Rattle.xc_model.specs.Progress.{body_of};
ghost use Rattle.xc_judge.specs.declared.basis.Basis.{Basis as PlainBasis};
ghost use Rattle.xc_script.specs.declared.ask.Ask.{Ask as PlainAsk};

use crate::Progress;
use crate::ran::Ran;
use xc_data::{Entry, NoMemory, Outcome};

impl Progress {
    /// After an entry that is true. Of one that committed it takes where its calls led.
    pub(crate) fn enter(self, entry: &Entry, kept: Option<Ran>) -> Result<Progress, NoMemory>
        requires open { IsOpenTo self entry.now.tx }
        requires room { self.entered + 1 < 2 ^ 32 }
        requires judged { (basis : PlainBasis) × (last : PlainAsk) × IsMachineTrue (telling_terms basis) self last entry.now }
        requires kept { IsKept kept (body_of self.state entry.now) entry.now.outcome }
        ensures value { IfOk result (λ next. next ≡ after_course self entry.now) }
        ensures open { (ty : ℕ) → (ty ≢ entry.now.tx) → IsOpenTo self ty → IfOk result (λ next. IsOpenTo next ty) }
    {
        match &entry.outcome {
            Outcome::Committed { late } => self.commit(entry, late.as_slice(), kept.unwrap()),
            Outcome::Aborted(report) => self.abort(entry, report),
        }
    }
}
