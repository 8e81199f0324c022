//! A job's way through the replies of an entry.

ghost use Rattle.std.specs.Bool.{Decides};
ghost use Rattle.std.specs.Prelude.{◌≡◌, Some, is_some, slice_get, true, IfOk, OnOk};
ghost use Rattle.xc_asked.specs.Walking.{IsAskedAt, walk_there};
ghost use Rattle.xc_model.specs.Asked.{AsksEach};
ghost use Rattle.xc_model.specs.Movers.{IsSameBegin};
ghost use Rattle.xc_script.specs.Asking.{asks};
ghost use Rattle.xc_script.specs.Blocks.{IsInner, all_replied, fits_block, replied};
ghost use Rattle.xc_script.specs.Position.{IsPastSilent, walk_of};
ghost use Rattle.xc_script.specs.declared.ask.Ask.TheVariants.{Call as AskedCall};

use crate::same_call::is_same;
use xc_data::{Call, NoMemory, Reply};
use xc_script::{Ask, JobState};
use xc_text::Script;

// Goes on after the reply to the call that was asked.
fn take_reply(
    place: &mut JobState,
    script: &Script,
    asked: &Call,
    reply: &Reply,
) -> Result<(), NoMemory>
    requires asked { asks (walk_of script.now place.old) ≡ AskedCall asked.now }
    requires settled { IsPastSilent script.now place.old }
    requires fits { fits_block (is_some place.old.saved) asked.now ≡ true }
    ensures walk { OnOk result (walk_there script.now place.new ≡ replied (walk_there script.now place.old) reply.now) }
    ensures begin { IsSameBegin place.old place.new }
{
    match asked {
        Call::Save => {
            place.save()?;
            place.answer(script, reply)
        }
        Call::Keep => {
            place.keep();
            place.answer(script, reply)
        }
        Call::Back => {
            place.unsave(script);
            Ok(())
        }
        // Any other call is made in the block that is open, also one yet to come.
        _ => place.answer(script, reply),
    }
}

// The call at this place is this one.
fn is_at(calls: &[Call], at: usize, asked: &Call) -> bool
    ensures { Decides result (slice_get calls.now at ≡ Some asked.now) }
{
    match calls.get(at) {
        Some(call) => is_same(call, asked),
        None => false,
    }
}

// Goes on after a reply, and says whether the call at this place was what was asked. Where no call is asked it stays.
fn follow_one(
    place: &mut JobState,
    script: &Script,
    calls: &[Call],
    at: usize,
    reply: &Reply,
) -> Result<bool, NoMemory>
    requires inner { IsInner (walk_there script.now place.old) }
    ensures asked { IfOk result (λ yes. Decides yes (IsAskedAt (walk_there script.now place.old) calls.now at)) }
    ensures walk { OnOk result (walk_there script.now place.new ≡ replied (walk_there script.now place.old) reply.now) }
    ensures begin { IsSameBegin place.old place.new }
{
    match place.ask(script)? {
        Ask::Call(asked) => {
            take_reply(place, script, &asked, reply)?;
            Ok(is_at(calls, at, &asked))
        }
        Ask::Commit | Ask::Abort | Ask::End => Ok(false),
    }
}

/// Follows these replies, and says whether each of these calls was the one that was asked.
pub(crate) fn follow(
    place: &mut JobState,
    script: &Script,
    calls: &[Call],
    replies: &[Reply],
) -> Result<bool, NoMemory>
    requires inner { IsInner (walk_there script.now place.old) }
    ensures asked { IfOk result (λ yes. Decides yes (AsksEach (walk_there script.now place.old) calls.now replies.now)) }
    ensures walk { OnOk result (walk_there script.now place.new ≡ all_replied (walk_there script.now place.old) replies.now) }
    ensures begin { IsSameBegin place.old place.new }
{
    let mut are_asked = true;
    for (at, reply) in replies.iter().enumerate() {
        are_asked &= follow_one(place, script, calls, at, reply)?;
    }
    Ok(are_asked && calls.len() <= replies.len())
}
