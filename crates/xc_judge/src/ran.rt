ghost use Rattle.std.specs.Bool.{Decides, OnTrue};
ghost use Rattle.std.specs.Prelude.{◌≤◌, IfOk, MatchOption};
ghost use Rattle.xc_judge.specs.Judged.{IsOpenTo, telling_terms};
ghost use Rattle.xc_judge.specs.Ran.{IsLedOn, IsLedOnBy, IsRan};
ghost use Rattle.xc_model.specs.Machine.{HasLateEnds, HasLates, HasReplies};
ghost use Rattle.xc_model.specs.Progress.{body_of};

use crate::faults::are_few_faults;
use crate::{Basis, Progress};
use xc_asked::kept_count;
use xc_data::{Entry, LateEnd, NoMemory, Outcome, Private};
use xc_machine::{Traced, World, replay_lates, replay_traced};

/// An entry's body, run again from where the journal led: the world and the private state that it left, and what it gave. The late
/// calls of an entry that committed lead on from that world. Its 256 handles are large: they stand in a box.
#[derive(Drop)]
pub(crate) struct Ran {
    pub(crate) world: World,
    pub(crate) me: Box<Private>,
    pub(crate) traced: Traced,
}

impl Progress {
    /// An entry's body, run again, if its replies are the plain machine's.
    pub(crate) fn run_again(&self, basis: &Basis, entry: &Entry) -> Result<Option<Ran>, NoMemory>
        requires open { IsOpenTo self.now entry.now.tx }
        requires numbered { 1 ≤ entry.now.job }
        ensures { IfOk result (λ r. MatchOption r (HasReplies (telling_terms basis.now) self.now entry.now → ⊥) (λ ran.
            HasReplies (telling_terms basis.now) self.now entry.now × IsRan ran (body_of self.now.state entry.now) entry.now.tx)) }
    {
        let (calls, replies) = (entry.calls.as_slice(), entry.replies.as_slice());
        let alloc = *self.jobs.allocator();
        let mut me = Box::new(alloc, self.begin(entry))?;
        let mut world = self.world.copy()?;
        let Some(traced) = replay_traced(alloc, &mut world, &mut me, entry.tx, calls, replies)?
        else {
            return Ok(None);
        };
        if !are_few_faults(basis.rules.undo_tries, calls, replies) {
            return Ok(None);
        }
        Ok(Some(Ran { world, me, traced }))
    }

    // The late calls that an entry's body left end so, one after another. They lead on from there.
    fn ends_so(
        &self,
        basis: &Basis,
        ran: &mut Ran,
        entry: &Entry,
        late: &[LateEnd],
    ) -> Result<bool, NoMemory>
        requires ran { IsRan ran.old (body_of self.now.state entry.now) entry.now.tx }
        ensures decides { IfOk result (λ yes. Decides yes (HasLateEnds (telling_terms basis.now) self.now entry.now late.now)) }
        ensures leads { IfOk result (λ yes. OnTrue yes
            (IsLedOn ran.new.world ran.new.me.value (body_of self.now.state entry.now) late.now)) }
    {
        let count = kept_count(entry.calls.as_slice(), entry.replies.as_slice());
        if late.len() != count {
            return Ok(false);
        }
        let yes = replay_lates(&mut ran.world, ran.traced.replied.late.as_slice(), late)?;
        Ok(yes)
    }

    /// The late calls of an entry that committed end as it says, and lead on from its body.
    pub(crate) fn has_lates(
        &self,
        basis: &Basis,
        ran: &mut Ran,
        entry: &Entry,
    ) -> Result<bool, NoMemory>
        requires ran { IsRan ran.old (body_of self.now.state entry.now) entry.now.tx }
        ensures decides { IfOk result (λ yes. Decides yes (HasLates (telling_terms basis.now) self.now entry.now entry.now.outcome)) }
        ensures leads { IfOk result (λ yes. OnTrue yes
            (IsLedOnBy ran.new (body_of self.now.state entry.now) entry.now.tx entry.now.outcome)) }
    {
        match &entry.outcome {
            Outcome::Committed { late } => {
                let yes = self.ends_so(basis, ran, entry, late.as_slice())?;
                Ok(yes)
            }
            Outcome::Aborted(_) => Ok(true),
        }
    }
}
