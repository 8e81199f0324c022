ghost use Rattle.std.specs.Prelude.{◌≡◌, ◌<◌, ◌^◌, length};
ghost use Rattle.xc_shown.specs.Shown.{lines_of_outcome_shown, lines_of_shown};

use crate::shown::Shown;
use xc_data::Outcome;

// How many lines show an outcome.
fn outcome_lines(shown: &Shown) -> usize
    ensures count { result ≡ length (lines_of_outcome_shown shown.now.entry.outcome shown.now) }
    ensures small { result < 2 ^ 63 }
{
    match &shown.entry.outcome {
        Outcome::Committed { late } => late.as_slice().len(),
        Outcome::Aborted(_) => shown.records.as_slice().len() + shown.effects.as_slice().len(),
    }
}

/// How many lines show it: an entry's first line is one more than those before it have.
pub fn line_count(shown: &Shown) -> usize
    ensures { result ≡ length (lines_of_shown shown.now) }
{
    let entry = &shown.entry;
    let calls = entry
        .calls
        .as_slice()
        .len()
        .min(entry.replies.as_slice().len());
    let held = if entry.held.is_empty() { 0 } else { 1 };
    1 + calls + outcome_lines(shown) + held
}
