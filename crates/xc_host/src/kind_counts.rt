ghost use Rattle.std.specs.Prelude.{◌≡◌, ◌<◌, [], ◌∷◌};
ghost use Rattle.xc_data.specs.Kinds.{kind_place};
ghost use Rattle.xc_host.specs.Cause.{IsCalled};
ghost use Rattle.xc_host.specs.Counting.{no_calls, calls_of, next_call_number, with_call};

use std::marker::Model;
use xc_data::HostCallKind;

/// How many kinds of calls there are.
pub const KINDS: usize = 25;

/// A kind's place in the list of kinds.
pub fn place_of(kind: HostCallKind) -> usize
    ensures value { result ≡ kind_place kind }
    ensures bound { result < 25 }
{
    kind as usize
}

/// How many calls of each kind there were; `Any` counts them all.
#[derive(Drop)]
pub struct KindCounts {
    // By the place of the kind.
    counts: [u64; 25],
}

impl Model for KindCounts {
    ghost use Rattle.std.specs.Prelude.{ℕ, List};

    ghost Value = { List ℕ };

    ghost view = { λ a. a.counts };
}

impl KindCounts {
    /// None of any kind.
    pub fn none() -> KindCounts
        ensures { result ≡ no_calls }
    {
        KindCounts { counts: [0; 25] }
    }

    /// The number of the next call of this kind, from 1.
    pub fn next(&self, kind: HostCallKind) -> u64
        ensures { result ≡ next_call_number kind self.now }
    {
        self.of(kind).saturating_add(1)
    }

    /// How many calls there were of this kind.
    pub fn of(&self, kind: HostCallKind) -> u64
        ensures { result ≡ calls_of self.now kind }
    {
        self.counts[place_of(kind)]
    }

    /// One call of this kind more.
    pub fn count(&mut self, kind: HostCallKind)
        ensures state { self.new ≡ with_call kind self.old }
        ensures called { IsCalled (kind ∷ []) (calls_of self.old) (calls_of self.new) }
    {
        let number = self.next(kind);
        let all = self.next(HostCallKind::Any);
        self.counts[place_of(kind)] = number;
        self.counts[place_of(HostCallKind::Any)] = all;
    }
}
