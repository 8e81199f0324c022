ghost use Rattle.std.specs.Prelude.{◌≡◌, ℕ, Ok};
ghost use Rattle.std.specs.declared.option.Option.TheVariants.{None, Some};
ghost use Rattle.xc_data.specs.declared.call.Call.{Call};
ghost use Rattle.xc_data.specs.declared.call.Answer.{Answer};
ghost use Rattle.xc_data.specs.declared.call.Reply.{Reply};
ghost use Rattle.xc_data.specs.declared.private.Private.{Private};
ghost use Rattle.xc_world.specs.World.{World};
ghost use Rattle.xc_world.specs.Act.{act};
ghost use Rattle.xc_world.specs.Act.Step.{step_to};
ghost use Rattle.xc_world.specs.Checks.{is_bad_word, is_refused, refusal_of};
ghost use Rattle.xc_calls.specs.Calls.{CallState, IsHostCall, StepsAlone};

use xc_host::Host;

/// A check that refuses a call does so on the plain machine, with the same reply. Where none does, only
/// a bad word is refused there.
pub fn a_check_refuses_as_the_plain_machine()
    ensures refused { (w : World) (me : Private) (tx : ℕ) (call : Call) (answer : Answer) (r : Reply) → refusal_of call me ≡ Some r
        → act w me tx call answer ≡ step_to w me r }
    ensures passed { (me : Private) (call : Call) (words : ℕ) → refusal_of call me ≡ None
        → is_refused call me words ≡ is_bad_word call words }
{}

/// A call that reaches no host is a host call over each host, which stays.
pub fn a_call_without_the_host_is_a_host_call<H: Host>()
    ensures { (call : Call) (state : CallState H) (next : Private) (reply : Reply) → StepsAlone call state.me next reply
        → IsHostCall H.model call state (record state { me = next }) (Ok reply) }
{}
