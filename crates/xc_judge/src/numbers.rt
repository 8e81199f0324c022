ghost use Rattle.std.specs.Option.{option_copied};
ghost use Rattle.std.specs.Prelude.{MatchOption};
ghost use Rattle.xc_judge.specs.Judged.{IsInTurn, IsInSomeTurn};

use crate::{Progress, Standing};
use xc_data::Entry;

impl Progress {
    /// The job that an entry is of, if it is started and the entry began in its turn.
    pub fn standing_of(&self, entry: &Entry) -> Option<&Standing>
        ensures { MatchOption (option_copied result) (IsInSomeTurn self.now entry.now → ⊥) (IsInTurn self.now entry.now) }
    {
        let at = (entry.job as usize).checked_sub(1)?;
        let standing = self.jobs.get(at)?;
        if standing.since <= entry.began && entry.began <= self.entered {
            return Some(standing);
        }
        None
    }
}
