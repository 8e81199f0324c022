ghost use Rattle.std.specs.Prelude.{◌≡◌, ◌+◌, ◌^◌, ◌<◌, ◌⊎◌, IfOk, IfErr};
ghost use Rattle.xc_turnstile.specs.Known.{Known};
ghost use Rattle.xc_turnstile.specs.Pairs.{Changes, EntersOnce, KeepsLeave, LosesOnce, MeetsBoth, TriesOnce};

use crate::chronicle::Chronicle;
use crate::turnstile::{Entered, Pass, Turnstile};

// Tries to enter once. Inside, it changes the value, and leaves.
fn try_change<V: Chronicle, F: FnMut(&mut V)>(
    turnstile: &Turnstile<V>,
    pass: Pass<V>,
    change: &mut F,
) -> Result<Pass<V>, Pass<V>>
    requires table { pass.table ≡ turnstile.now.table.shared.table_id }
    requires callable { F.IsAlwaysCallable change.old }
    requires keeps { KeepsLeave V.meaning F.FnMut }
    ensures ok { IfOk result (λ left. EntersOnce V.meaning (Changes F.FnMut change.old change.new) pass left) }
    ensures err { IfErr result (λ back. LosesOnce pass back) }
{
    match turnstile.try_enter(pass) {
        Entered::Inside(mut value, hold) => {
            change(&mut value);
            Ok(turnstile.leave(value, hold))
        }
        Entered::Held(back, _) => Err(back),
    }
}

/// Tries to enter once by each of two passes. Inside, it changes the value by the closure that is given for the pass, and
/// leaves. Where both entered, it meets the two passes; where one of them found another inside, both come back.
pub fn enter_two<V: Chronicle, F: FnMut(&mut V), G: FnMut(&mut V)>(
    turnstile: &Turnstile<V>,
    a: Pass<V>,
    b: Pass<V>,
    first: &mut F,
    second: &mut G,
) -> Result<Pass<V>, (Pass<V>, Pass<V>)>
    requires table_of_a { a.table ≡ turnstile.now.table.shared.table_id }
    requires table_of_b { b.table ≡ turnstile.now.table.shared.table_id }
    requires shares { a.view.shares + b.view.shares < 2 ^ 64 }
    requires first_callable { F.IsAlwaysCallable first.old }
    requires second_callable { G.IsAlwaysCallable second.old }
    requires first_keeps { KeepsLeave V.meaning F.FnMut }
    requires second_keeps { KeepsLeave V.meaning G.FnMut }
    ensures ok { IfOk result (λ met. (left : Known V.Entry V.Event V.Origin) × (right : Known V.Entry V.Event V.Origin)
        × EntersOnce V.meaning (Changes F.FnMut first.old first.new) a left
        × EntersOnce V.meaning (Changes G.FnMut second.old second.new) b right × MeetsBoth left right met) }
    ensures err { IfErr result (λ back. (LosesOnce a back.0 × TriesOnce V.meaning (Changes G.FnMut second.old second.new) b back.1)
        ⊎ (EntersOnce V.meaning (Changes F.FnMut first.old first.new) a back.0 × LosesOnce b back.1)) }
{
    match try_change(turnstile, a, first) {
        Ok(a) => match try_change(turnstile, b, second) {
            Ok(b) => Ok(turnstile.meet(a, b)),
            Err(b) => Err((a, b)),
        },
        Err(a) => match try_change(turnstile, b, second) {
            Ok(b) => Err((a, b)),
            Err(b) => Err((a, b)),
        },
    }
}
