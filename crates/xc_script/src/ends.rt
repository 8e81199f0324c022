ghost use Rattle.std.specs.Prelude.{◌≡◌};
ghost use Rattle.xc_script.specs.Blocks.{kept_calls};
ghost use Rattle.xc_script.specs.Slots.{goes_back, with_ends};

use crate::value::Variables;
use xc_data::{Call, LateEnd, Reply};

/// The block that these calls go on in goes back: no other line of a block comes before its back.
pub fn goes_back(calls: &[Call], replies: &[Reply]) -> bool
    ensures { result ≡ goes_back calls.now replies.now }
{
    let [call, calls @ ..] = calls else {
        return false;
    };
    let [_, replies @ ..] = replies else {
        return false;
    };
    match call {
        Call::Save | Call::Keep => false,
        Call::Back => true,
        _ => goes_back(calls, replies),
    }
}

/// The slots of the calls that were kept take their ends, in order. Those that a back dropped have none. It looks ahead once
/// in each block, and takes no memory.
pub fn set_ends(
    variables: &mut Variables,
    mut calls: &[Call],
    mut replies: &[Reply],
    mut ends: &[LateEnd],
)
    ensures { variables.new ≡ with_ends variables.old (kept_calls calls.entry.now replies.entry.now) ends.entry.now }
{
    let mut dropped = false;
    // Most transactions keep no call.
    while let [end, later @ ..] = ends {
        let [call, calls_behind @ ..] = calls else {
            return;
        };
        let [reply, replies_behind @ ..] = replies else {
            return;
        };
        calls = calls_behind;
        replies = replies_behind;
        match call {
            Call::Save => dropped = goes_back(calls, replies),
            Call::Keep | Call::Back => dropped = false,
            _ if dropped || !reply.is_late() => {}
            _ => {
                variables.end(call.slot(), *end);
                ends = later;
            }
        }
    }
}
