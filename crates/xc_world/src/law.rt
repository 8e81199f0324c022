ghost use Rattle.std.specs.Prelude.{◌≡◌, ◌≢◌, ◌++◌, ◌<◌, ℕ, true, false, IsTrue, All, length};
ghost use Rattle.xc_data.specs.declared.call.Call.{Call};
ghost use Rattle.xc_data.specs.declared.call.Answer.{Answer};
ghost use Rattle.xc_data.specs.declared.call.Reply.{Reply};
ghost use Rattle.xc_data.specs.declared.call.LateCall.{LateCall};
ghost use Rattle.xc_data.specs.declared.call.LateAnswer.{LateAnswer};
ghost use Rattle.xc_data.specs.declared.private.Private.{Private};
ghost use Rattle.xc_data.specs.declared.script.Outline.{Outline};
ghost use Rattle.xc_world.specs.World.{World, beginning};
ghost use Rattle.xc_world.specs.Act.{act};
ghost use Rattle.xc_world.specs.Late.{late, kept_call};
ghost use Rattle.xc_world.specs.Checks.{is_check_reply, is_refused, refusal};
ghost use Rattle.xc_world.specs.Replies.{may_reply};
ghost use Rattle.xc_world.specs.Act.Step.{step_to};
ghost use Rattle.xc_world.specs.Fits.{fits, late_fits, is_late_within};
ghost use Rattle.xc_world.specs.Touch.{touch, made_by};
ghost use Rattle.xc_world.specs.Sound.{IsFit, IsSound, IsShortCall, names_there, IsReady};
ghost use Rattle.xc_data.specs.Limits.{KeepsLimits};
ghost use Rattle.xc_world.specs.Opening.{opening, opening_handles};
ghost use Rattle.xc_world.specs.Laws.{is_refusal, AgreeAt, ActsAlike, EndsAlike, late_objects};

/// A call whose reply is a refusal, the end, or a fault of no byte leaves the world as it was.
pub fn a_refused_call_changes_nothing()
    ensures { (w : World) (me : Private) (tx : ℕ) (call : Call) (answer : Answer) → IsTrue (is_refusal (act w me tx call answer).reply)
        → (act w me tx call answer).world ≡ w }
{}

/// A call that a private check refuses leaves the private state too, and nothing is counted.
pub fn a_privately_refused_call_leaves_all()
    ensures { (w : World) (me : Private) (tx : ℕ) (call : Call) (answer : Answer) → IsTrue (is_refused call me (length w.words))
        → act w me tx call answer ≡ step_to w me (refusal call me) }
{}

/// What a call may reply that the private checks let pass is none of their replies.
pub fn what_may_be_replied_is_no_refusal()
    ensures { (call : Call) (reply : Reply) → may_reply call reply ≡ true → is_check_reply call reply ≡ false }
{}

/// Whatever else two worlds hold: where they agree on what a call touches and makes, it replies the
/// same in both, they agree on that afterwards, and everything else stays as it was.
pub fn a_call_is_local()
    ensures { (w v : World) (me : Private) (tx : ℕ) (call : Call) (answer : Answer) → length w.words ≡ length v.words
        → All (AgreeAt w v) (touch call me (length w.words) ++ made_by call me tx)
        → ActsAlike (touch call me (length w.words) ++ made_by call me tx) w v (act w me tx call answer) (act v me tx call answer) }
{}

/// An answer that fits a late call tells of no more bytes than the call carries.
pub fn what_fits_a_late_call_is_within_it()
    ensures { (w : World) (call : LateCall) (answer : LateAnswer) → IsTrue (late_fits w call answer) → IsTrue (is_late_within call answer) }
{}

/// The same for a late call and its object. Both worlds know the same blocks.
pub fn a_late_call_is_local()
    ensures { (w v : World) (call : LateCall) (answer : LateAnswer) → w.blocks ≡ v.blocks → All (AgreeAt w v) (late_objects call)
        → EndsAlike (late_objects call) w v (late w call answer) (late v call answer) }
{}

/// A call with an answer that fits keeps a world and a private state sound.
pub fn a_call_keeps_all_sound()
    ensures { (w : World) (me : Private) (tx : ℕ) (call : Call) (answer : Answer) → IsTrue (fits w me tx call answer) → IsSound w me tx
        → IsSound (act w me tx call answer).world (act w me tx call answer).me tx }
{}

/// It keeps every other transaction's private state sound too.
pub fn a_call_keeps_others_sound()
    ensures { (w : World) (me you : Private) (tx ty : ℕ) (call : Call) (answer : Answer) → IsTrue (fits w me tx call answer) → (ty ≢ tx)
        → IsSound w me tx → IsSound w you ty
        → IsSound (act w me tx call answer).world you ty }
{}

/// A late call of at most 1,024 bytes keeps a world within its limits.
pub fn a_late_call_keeps_the_limits()
    ensures { (w : World) (call : LateCall) (answer : LateAnswer) → IsShortCall call → IsFit w → IsFit (late w call answer).world }
{}

/// Where its object is there it also keeps every transaction's private state sound.
pub fn a_late_call_keeps_all_sound()
    ensures { (w : World) (me : Private) (tx : ℕ) (call : LateCall) (answer : LateAnswer) → IsShortCall call → IsTrue (names_there w call)
        → IsSound w me tx
        → IsSound (late w call answer).world me tx }
{}

/// The opening of a script within its limits is sound for each job's first transaction.
pub fn the_opening_is_sound()
    ensures { (script : Outline) → KeepsLimits script → (tx : ℕ) → 0 < tx
        → IsSound (opening script) (beginning (opening_handles script)) tx }
{}

/// The late call that a call leaves is ready where it is made.
pub fn a_call_leaves_ready_late_calls()
    ensures { (w : World) (me : Private) (tx : ℕ) (call : Call) (answer : Answer) → IsTrue (fits w me tx call answer) → IsSound w me tx
        → All (IsReady (act w me tx call answer).world) (kept_call call me (act w me tx call answer).reply) }
{}

/// What is ready stays so at every call, also of another transaction.
pub fn a_call_keeps_late_calls_ready()
    ensures { (w : World) (me : Private) (tx : ℕ) (call : Call) (answer : Answer) (kept : LateCall) → IsTrue (fits w me tx call answer)
        → IsSound w me tx → IsReady w kept
        → IsReady (act w me tx call answer).world kept }
{}

/// And at every late call.
pub fn a_late_call_keeps_late_calls_ready()
    ensures { (w : World) (call : LateCall) (answer : LateAnswer) (kept : LateCall) → IsShortCall call → IsFit w → IsReady w kept
        → IsReady (late w call answer).world kept }
{}
