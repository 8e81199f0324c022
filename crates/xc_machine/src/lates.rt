ghost use Rattle.std.specs.Prelude.{◌≡◌, ℕ, length, All, IfOk};
ghost use Rattle.std.specs.Bool.{Decides, OnTrue};
ghost use Rattle.xc_data.specs.declared.private.Private.{Private};
ghost use Rattle.xc_world.specs.Sound.{IsFit, IsReady, IsSound};
ghost use Rattle.xc_world.specs.Fits.{late_answer_of};
ghost use Rattle.xc_world.specs.Late.{late};
ghost use Rattle.xc_machine.specs.Replay.{IsEnded, AreEnded, led_by};

use crate::World;
use xc_data::{LateAnswer, LateCall, LateEnd, NoMemory};

// What a late call met at the host, as its end tells.
fn answer_in(end: LateEnd) -> LateAnswer
    ensures { result ≡ late_answer_of end }
{
    match end {
        LateEnd::Fault(n) => LateAnswer::Fault(n),
        LateEnd::NoMemory(n) => LateAnswer::NoMemory(n),
        LateEnd::Done | LateEnd::Full(_) | LateEnd::Shut => LateAnswer::Fine,
        LateEnd::NoName | LateEnd::NoScript => LateAnswer::Fine,
    }
}

// A late call, where it ends so.
#[tactic(auto, using(xc_world::proofs::Runs::late_answer_within))]
fn replay_late(world: &mut World, call: &LateCall, end: &LateEnd) -> Result<bool, NoMemory>
    requires ready { IsReady world.old call.now }
    ensures decides { IfOk result (λ yes. Decides yes (IsEnded world.old call.now end.now)) }
    ensures world { IfOk result (λ yes. OnTrue yes (world.new ≡ (late world.old call.now (late_answer_of end.now)).world)) }
{
    let answer = answer_in(*end);
    if !world.late_fits(call, answer) {
        return Ok(false);
    }
    let given = world.late(call, answer)?;
    Ok(given == *end)
}

/// The late calls one after another, as long as each ends as it is recorded.
pub fn replay_lates(
    world: &mut World,
    calls: &[LateCall],
    ends: &[LateEnd],
) -> Result<bool, NoMemory>
    requires fit { IsFit world.old }
    requires ready { All (IsReady world.old) calls.now }
    ensures decides { IfOk result (λ yes. Decides yes (AreEnded world.old calls.now ends.now)) }
    ensures world { IfOk result (λ yes. OnTrue yes (world.new ≡ led_by world.old calls.now ends.now)) }
    ensures words { IfOk result (λ yes. OnTrue yes (length world.new.words ≡ length world.old.words)) }
    ensures sound { (me : Private) (tx : ℕ) → IsSound world.old me tx → IfOk result (λ yes. OnTrue yes (IsSound world.new me tx)) }
{
    if calls.len() != ends.len() {
        return Ok(false);
    }
    for (at, call) in calls.iter().enumerate() {
        if !replay_late(world, call, &ends[at])? {
            return Ok(false);
        }
    }
    Ok(true)
}
