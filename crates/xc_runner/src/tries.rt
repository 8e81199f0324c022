ghost use Rattle.std.specs.Prelude.{◌≡◌};
ghost use Rattle.xc_data.specs.declared.entry.Event.TheVariants.{Turned, Picked};
ghost use Rattle.xc_runner.specs.Tries.{HasTried};

use xc_data::Turn;
use xc_host::Host;
use xc_station::Station;
use xc_turnstile::{Entered, Pass, Turnstile};

/// What a step gave that doesn't wait.
#[derive(Drop)]
pub enum Tried<A> {
    /// It entered, and this was the answer.
    Answered(A),
    /// Another pass was inside; the word was this one.
    Held(u64),
}

/// Takes the next job, in one entering, where nobody is inside. It doesn't wait.
pub fn try_pick<H: Host>(
    turnstile: &Turnstile<Box<Station<H>>>,
    pass: Pass<Box<Station<H>>>,
) -> (Pass<Box<Station<H>>>, Tried<Option<u32>>)
    requires { pass.table ≡ turnstile.now.table.shared.table_id }
    ensures tried { HasTried (λ job. Picked job) pass result.0 result.1 }
    ensures mine { result.0.view.mine ≡ pass.view.mine }
{
    match turnstile.try_enter(pass) {
        Entered::Inside(value, hold) => {
            let mut station = value;
            let job = station.next_job();
            (turnstile.leave(station, hold), Tried::Answered(job))
        }
        Entered::Held(back, word) => (back, Tried::Held(word)),
    }
}

/// Takes one turn of a job, in one entering, where nobody is inside. It answers what the station's `try_turn` does, and doesn't wait.
pub fn try_turn<H: Host>(
    turnstile: &Turnstile<Box<Station<H>>>,
    pass: Pass<Box<Station<H>>>,
    job: u32,
) -> (Pass<Box<Station<H>>>, Tried<Option<Turn>>)
    requires { pass.table ≡ turnstile.now.table.shared.table_id }
    ensures { HasTried (λ answer. Turned job answer) pass result.0 result.1 }
{
    match turnstile.try_enter(pass) {
        Entered::Inside(value, hold) => {
            let mut station = value;
            let answer = station.try_turn(job);
            (turnstile.leave(station, hold), Tried::Answered(answer))
        }
        Entered::Held(back, word) => (back, Tried::Held(word)),
    }
}
