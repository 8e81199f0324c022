ghost use Rattle.std.specs.Prelude.{◌≡◌, [], ◌∷◌};
ghost use Rattle.xc_data.specs.Counts.{CountsFault};
ghost use Rattle.xc_host.specs.Cause.{is_fault, without_memory, IsCalled};
ghost use Rattle.xc_host.specs.Counting.{calls_of, no_calls};

use xc_data::HostCallKind;
use xc_host::{Fault, HostErr, KindCounts};

/// How many calls of each kind there were since the opening, and how many calls ever answered a
/// fault. At its last value a count stays.
#[derive(Drop)]
pub(crate) struct Counts {
    pub(crate) calls: KindCounts,
    pub(crate) faults: u64,
}

impl Counts {
    pub(crate) fn none() -> Counts {
        Counts {
            calls: KindCounts::none(),
            faults: 0,
        }
    }

    // The calls are counted anew, and the faults on.
    pub(crate) fn begin_anew(&mut self)
        ensures calls { self.new.calls ≡ no_calls }
        ensures faults { self.new.faults ≡ self.old.faults }
    {
        self.calls = KindCounts::none();
    }

    // Counts a call that takes no memory, by its answer.
    pub(crate) fn note<T: Drop>(
        &mut self,
        kind: HostCallKind,
        answer: Result<T, Fault>,
    ) -> Result<T, Fault>
        ensures same { result ≡ answer }
        ensures called { IsCalled (kind ∷ []) (calls_of self.old.calls) (calls_of self.new.calls) }
        ensures cause { CountsFault (is_fault (without_memory answer)) self.old.faults self.new.faults }
    {
        self.calls.count(kind);
        if answer.is_err() {
            self.faults = self.faults.saturating_add(1);
        }
        answer
    }

    // Counts a call that can run out of memory too, by its answer.
    pub(crate) fn note_either<T: Drop>(
        &mut self,
        kind: HostCallKind,
        answer: Result<T, HostErr>,
    ) -> Result<T, HostErr>
        ensures same { result ≡ answer }
        ensures called { IsCalled (kind ∷ []) (calls_of self.old.calls) (calls_of self.new.calls) }
        ensures cause { CountsFault (is_fault answer) self.old.faults self.new.faults }
    {
        self.calls.count(kind);
        if let Err(HostErr::Fault) = &answer {
            self.faults = self.faults.saturating_add(1);
        }
        answer
    }
}
