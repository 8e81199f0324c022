ghost use Rattle.std.specs.Bool.{Decides};
ghost use Rattle.std.specs.Prelude.{◌≡◌};
ghost use Rattle.xc_judge.specs.Counts.{block_count, count_of, counts};
ghost use Rattle.xc_model.specs.Recorded.{AreFewFaults, IsFewFaults, all_records, no_records};

use crate::counted::Counted;
use xc_data::{Call, Reply};

impl Counted {
    // How many records the open block has.
    fn block_records(&self) -> usize
        ensures { result ≡ block_count (counts self.now) }
    {
        self.count.saturating_sub(self.saved.unwrap_or(self.count))
    }

    // A way back met no more faults than there are tries of its block's records, less one for each.
    fn is_few(&self, tries: u32, reply: &Reply) -> bool
        ensures { Decides result (IsFewFaults tries (block_count (counts self.now)) reply.now) }
    {
        let Reply::Undone(faults) = reply else {
            return true;
        };
        let most = self.block_records() as u128 * tries.saturating_sub(1) as u128;
        *faults as u128 <= most
    }
}

/// So it is of each way back of these calls.
pub(crate) fn are_few_faults(tries: u32, mut calls: &[Call], mut replies: &[Reply]) -> bool
    ensures { Decides result (AreFewFaults tries no_records calls.entry.now replies.entry.now) }
{
    let mut counted = Counted::none();
    while let [call, calls_behind @ ..] = calls {
        let [reply, replies_behind @ ..] = replies else {
            return true;
        };
        if !counted.is_few(tries, reply) {
            return false;
        }
        counted.take_call(call, reply);
        calls = calls_behind;
        replies = replies_behind;
    }
    true
}

/// How many records these calls with their replies leave.
pub(crate) fn records_of(mut calls: &[Call], mut replies: &[Reply]) -> Counted
    ensures { counts result ≡ count_of (all_records no_records calls.entry.now replies.entry.now) }
{
    let mut counted = Counted::none();
    while let [call, calls_behind @ ..] = calls {
        let [reply, replies_behind @ ..] = replies else {
            return counted;
        };
        counted.take_call(call, reply);
        calls = calls_behind;
        replies = replies_behind;
    }
    counted
}
