ghost use Rattle.std.specs.Bool.{Decides};
ghost use Rattle.std.specs.Prelude.{◌≡◌, [], ◌∷◌, ◌++◌, List, ℕ, length, map, MatchOption};
ghost use Rattle.std.specs.Option.{option_copied};
ghost use Rattle.std.specs.declared.option.Option.TheVariants.{Some};
ghost use Rattle.xc_data.specs.Calls.{thread_asked};
ghost use Rattle.xc_model.specs.LateCalls.{started_with};
ghost use Rattle.xc_model.specs.Starts.{AreStarts, IsStart};
ghost use Rattle.xc_script.specs.Blocks.{kept_calls};

use crate::blocks::is_block_in;
use crate::kept::KeptCalls;
use xc_data::{Call, Ident, LateEnd, Reply};
use xc_text::Script;

/// The most jobs that are started in a run, those of the opening included.
const MOST_JOBS: usize = 1000;

// How many jobs are started after a call that starts one of this block ended so; nothing, where the script has it otherwise.
fn started_after(script: &Script, started: usize, block: &Ident, end: LateEnd) -> Option<usize>
    ensures { (was : List (List ℕ)) → length was ≡ started → let is = was ++ started_with (Some block.now) end in
        MatchOption result (IsStart script.now was block.now end is → ⊥)
        (λ after. IsStart script.now was block.now end is × (length is ≡ after)) }
{
    match end {
        LateEnd::Done if started < MOST_JOBS && is_block_in(script, block) => Some(started + 1),
        LateEnd::NoScript if !is_block_in(script, block) => Some(started),
        LateEnd::Full(0) if MOST_JOBS <= started && is_block_in(script, block) => Some(started),
        LateEnd::NoMemory(0) => Some(started),
        // It has no other end, also none yet to come.
        _ => None,
    }
}

// The block of the job that a call would start, where it would start one.
fn thread_asked(call: &Call) -> Option<&Ident>
    ensures { option_copied result ≡ thread_asked call.now }
{
    match call {
        Call::XThreadCreate { body, .. } => Some(body.value()),
        // No other call starts one, also none yet to come.
        _ => None,
    }
}

// The same after a call, whether or not it starts one.
fn started_behind(script: &Script, started: usize, call: &Call, end: LateEnd) -> Option<usize>
    ensures { (was : List (List ℕ)) → length was ≡ started → let asked = thread_asked call.now in
        MatchOption result (AreStarts script.now was (asked ∷ []) (end ∷ []) → ⊥)
        (λ after. AreStarts script.now was (asked ∷ []) (end ∷ []) × (length (was ++ started_with asked end) ≡ after)) }
{
    match thread_asked(call) {
        Some(block) => started_after(script, started, block, end),
        None => Some(started),
    }
}

/// Each of these calls that was kept for the commit and starts a job ended as the script has it, where so many jobs are started.
pub(crate) fn are_starts(
    script: &Script,
    mut started: usize,
    calls: &[Call],
    replies: &[Reply],
    ends: &[LateEnd],
) -> bool
    ensures { (was : List (List ℕ)) → length was ≡ started
        → Decides result (AreStarts script.now was (map thread_asked (kept_calls calls.now replies.now)) ends.now) }
{
    let mut kept = KeptCalls::of(calls, replies);
    for end in ends {
        let Some(call) = kept.take() else {
            return true;
        };
        match started_behind(script, started, call, *end) {
            Some(after) => started = after,
            None => return false,
        }
    }
    true
}
