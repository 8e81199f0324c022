ghost use Rattle.std.specs.Prelude.{◌≡◌, ◌↔◌, ℕ, List, IsTrue};
ghost use Rattle.xc_data.specs.declared.call.Call.{Call};
ghost use Rattle.xc_data.specs.declared.call.Reply.{Reply};
ghost use Rattle.xc_data.specs.declared.call.LateCall.{LateCall};
ghost use Rattle.xc_data.specs.declared.call.LateEnd.{LateEnd};
ghost use Rattle.xc_data.specs.declared.private.Private.{Private};
ghost use Rattle.xc_world.specs.World.{World};
ghost use Rattle.xc_world.specs.Run.{asked_of, body, body_fits, lates, lates_fit, late_asked_of};
ghost use Rattle.xc_machine.specs.Replay.{AreReplayed, AreEnded, led_by};

/// A body is replayed exactly where the answers that its replies tell fit and it gives these replies.
pub fn what_is_replayed()
    ensures { (w : World) (me : Private) (tx : ℕ) (calls : List Call) (replies : List Reply) → AreReplayed w me tx calls replies
        ↔ (IsTrue (body_fits w me tx (asked_of calls replies)) × ((body w me tx (asked_of calls replies)).replies ≡ replies)) }
{}

/// Late calls end as recorded exactly where the answers that their ends tell fit and they give these ends; and they lead to the
/// same world.
pub fn what_ends_so()
    ensures ends { (w : World) (calls : List LateCall) (ends : List LateEnd) → AreEnded w calls ends
        ↔ (IsTrue (lates_fit w (late_asked_of calls ends)) × ((lates w (late_asked_of calls ends)).ends ≡ ends)) }
    ensures world { (w : World) (calls : List LateCall) (ends : List LateEnd) → AreEnded w calls ends
        → led_by w calls ends ≡ (lates w (late_asked_of calls ends)).world }
{}
