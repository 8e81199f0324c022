ghost use Rattle.std.specs.Prelude.{◌≡◌, [], ◌∷◌, ◌++◌, length, IfOk, OnOk, MatchOption};
ghost use Rattle.std.specs.Option.{option_copied};
ghost use Rattle.xc_model.specs.Progress.{started_blocks, started_by_call};
ghost use Rattle.xc_script.specs.Blocks.{kept_calls};

use std::alloc::Global;
use std::marker::Model;
use xc_data::{Call, Ident, IdentList, Items, LateEnd, NoMemory, Reply};
use xc_script::goes_back;

/// The calls among these that were kept for the commit, but for those of blocks that went back. It looks ahead once in each block.
#[derive(Drop)]
pub(crate) struct KeptCalls<'a> {
    calls: &'a [Call],
    replies: &'a [Reply],
    // The block that is open goes back.
    dropped: bool,
}

impl<'a> Model for KeptCalls<'a> {
    ghost use Rattle.std.specs.Prelude.{List};
    ghost use Rattle.xc_data.specs.declared.call.Call.{Call as PlainCall};
    ghost use Rattle.xc_script.specs.Slots.{kept_behind};

    ghost Value = { List PlainCall };

    ghost view = { λ a. kept_behind a.dropped a.calls.now a.replies.now };
}

impl<'a> KeptCalls<'a> {
    /// All of these calls that were kept.
    pub(crate) fn of(calls: &'a [Call], replies: &'a [Reply]) -> KeptCalls<'a>
        ensures { result ≡ kept_calls calls.now replies.now }
    {
        KeptCalls {
            calls,
            replies,
            dropped: false,
        }
    }

    /// The next one.
    pub(crate) fn take(&mut self) -> Option<&'a Call>
        ensures { MatchOption (option_copied result) (self.old ≡ []) (λ call. self.old ≡ call ∷ self.new) }
    {
        while let [call, calls @ ..] = self.calls {
            let [reply, replies @ ..] = self.replies else {
                return None;
            };
            self.calls = calls;
            self.replies = replies;
            match call {
                Call::Save => self.dropped = goes_back(calls, replies),
                Call::Keep | Call::Back => self.dropped = false,
                _ if self.dropped || !reply.is_late() => {}
                _ => return Some(call),
            }
        }
        None
    }
}

/// How many calls were kept for the commit, but for those of blocks that went back.
pub fn kept_count(calls: &[Call], replies: &[Reply]) -> usize
    ensures { result ≡ length (kept_calls calls.now replies.now) }
{
    let mut kept = KeptCalls::of(calls, replies);
    let mut count = 0;
    while let Some(_call) = kept.take() {
        count += 1;
    }
    count
}

// The block that a kept call with this end started.
fn started_by(call: &Call, end: LateEnd) -> Option<Ident>
    ensures { MatchOption result (started_by_call call.now end ≡ []) (λ block. started_by_call call.now end ≡ block ∷ []) }
{
    match (call, end) {
        (Call::XThreadCreate { body, .. }, LateEnd::Done) => Some(*body.value()),
        // No other call starts one, nor does one that was not done.
        _ => None,
    }
}

// The block that a kept call with this end started, where it did, comes behind others.
fn push_started(blocks: &mut IdentList, call: &Call, end: LateEnd) -> Result<(), NoMemory>
    ensures { OnOk result (blocks.new ≡ blocks.old ++ started_by_call call.now end) }
{
    match started_by(call, end) {
        Some(block) => blocks.push(block),
        None => Ok(()),
    }
}

/// The blocks that kept calls with these ends started, but for those that a back dropped.
pub fn started(
    alloc: Global,
    calls: &[Call],
    replies: &[Reply],
    ends: &[LateEnd],
) -> Result<IdentList, NoMemory>
    ensures { IfOk result (λ blocks. blocks ≡ started_blocks (kept_calls calls.now replies.now) ends.now) }
{
    let mut kept = KeptCalls::of(calls, replies);
    let mut names = Items::new(alloc);
    for end in ends {
        let Some(call) = kept.take() else {
            return Ok(names);
        };
        push_started(&mut names, call, *end)?;
    }
    Ok(names)
}
