ghost use Rattle.std.specs.Prelude.{◌≡◌, ◌≤◌, length, IfSome};
ghost use Rattle.xc_live_c.specs.Finished.{both_totals};
ghost use Rattle.xc_print.specs.Totals.{totals_of};

use xc_data::Entry;
use xc_print::Totals;

/// How many entries wait to be handed out at most.
const MOST_ENTRIES: usize = 10_000;

// The totals of entries that wait. A desk holds no more of them than they may be.
pub(crate) fn held_totals(entries: &[Entry]) -> Option<Totals>
    ensures few { IfSome result (λ _. length entries.now ≤ 10000) }
    ensures totals { IfSome result (λ totals. totals ≡ totals_of entries.now) }
{
    if entries.len() > MOST_ENTRIES {
        return None;
    }
    Some(Totals::of(entries))
}

// The totals of some entries and of others, unless a count gets too large.
pub(crate) fn both_totals(one: Totals, other: Totals) -> Option<Totals>
    ensures { IfSome result (λ both. both ≡ both_totals one other) }
{
    Some(Totals {
        committed: one.committed.checked_add(other.committed)?,
        aborted: one.aborted.checked_add(other.aborted)?,
        faults: one.faults.checked_add(other.faults)?,
        remains: one.remains.checked_add(other.remains)?,
    })
}
