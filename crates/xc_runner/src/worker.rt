ghost use Rattle.std.specs.Prelude.{◌≡◌, IfErr, IfOk};
ghost use Rattle.xc_data.specs.declared.entry.Event.TheVariants.{Turned, Picked};
ghost use Rattle.xc_turnstile.specs.declared.turnstile.Entered.TheVariants.{Inside};
ghost use Rattle.xc_turnstile.specs.Enterings.{HasEntered};
ghost use Rattle.xc_turnstile.specs.Insides.{GainsEvent, IsInside, IsOutside, PassGoesOn};
ghost use Rattle.xc_runner.specs.Walks.{FindsNoneLeft, Leads, is_last, over, picking, turning};

use crate::backoff::Backoff;
use crate::pace::Pace;
use crate::tries::{Tried, try_pick, try_turn};
use std::sync::Wait;
use xc_data::Turn;
use xc_host::Host;
use xc_station::Station;
use xc_turnstile::{Chronicle, Entered, Hold, Pass, Turnstile};

// Tries once to enter, unless a look finds another inside.
fn enter_free<V: Chronicle>(
    turnstile: &Turnstile<V>,
    pass: Pass<V>,
) -> Result<(V, Hold<V>), Pass<V>>
    requires { pass.table ≡ turnstile.now.table.shared.table_id }
    ensures ok { IfOk result (λ inside. HasEntered V.meaning pass (Inside inside.0 inside.1)) }
    ensures err { IfErr result (IsOutside pass) }
{
    if turnstile.is_held() {
        return Err(pass);
    }
    match turnstile.try_enter(pass) {
        Entered::Inside(value, hold) => Ok((value, hold)),
        Entered::Held(back, _) => Err(back),
    }
}

/// Tries until it is inside. It may wait.
pub fn enter<V: Chronicle, R: Wait>(rt: &R, turnstile: &Turnstile<V>, pass: Pass<V>) -> (V, Hold<V>)
    requires { pass.table ≡ turnstile.now.table.shared.table_id }
    ensures { IsInside V.meaning pass result.1 result.0 }
{
    let mut mine = pass;
    let mut backoff = Backoff::new();
    for _ in rt.forever() {
        match enter_free(turnstile, mine) {
            Ok(inside) => return inside,
            Err(back) => mine = back,
        }
        backoff.wait(rt);
    }
    unreachable!()
}

/// Takes the next job, in one entering. It waits while others are inside.
pub fn pick<H: Host, R: Wait>(
    rt: &R,
    turnstile: &Turnstile<Box<Station<H>>>,
    pass: Pass<Box<Station<H>>>,
) -> (Pass<Box<Station<H>>>, Option<u32>)
    requires { pass.table ≡ turnstile.now.table.shared.table_id }
    ensures gains { GainsEvent pass result.0 (Picked result.1) }

    // A pick adds no entry.
    ensures mine { result.0.view.mine ≡ pass.view.mine }
{
    let mut mine = pass;
    let mut backoff = Backoff::new();
    for _ in rt.forever() {
        if !turnstile.is_held() {
            let (back, tried) = try_pick(turnstile, mine);
            mine = back;
            match tried {
                Tried::Answered(job) => return (mine, job),
                Tried::Held(_) => {}
            }
        }
        backoff.wait(rt);
    }
    unreachable!()
}

/// Takes one turn of a job, in one entering. It answers what `try_turn` does, and waits while others are inside.
pub fn turn<H: Host, R: Wait>(
    rt: &R,
    turnstile: &Turnstile<Box<Station<H>>>,
    pass: Pass<Box<Station<H>>>,
    job: u32,
) -> (Pass<Box<Station<H>>>, Option<Turn>)
    requires { pass.table ≡ turnstile.now.table.shared.table_id }
    ensures { GainsEvent pass result.0 (Turned job result.1) }
{
    let mut mine = pass;
    let mut backoff = Backoff::new();
    for _ in rt.forever() {
        if !turnstile.is_held() {
            let (back, tried) = try_turn(turnstile, mine, job);
            mine = back;
            match tried {
                Tried::Answered(answer) => return (mine, answer),
                Tried::Held(_) => {}
            }
        }
        backoff.wait(rt);
    }
    unreachable!()
}

// Whether a job takes no further turn after this answer.
fn ends(answer: &Option<Turn>) -> bool
    ensures { result ≡ is_last answer.now }
{
    match answer {
        None | Some(Turn::Ended(_)) => true,
        Some(Turn::Went | Turn::Busy { .. } | Turn::NoMemory) => false,
    }
}

// Whether a job waits for another after this answer.
fn waits(answer: &Option<Turn>) -> bool {
    matches!(answer, Some(Turn::Busy { .. }))
}

/// Takes a job's turns to its end, one entering for each, and calls the pace after each. While the job waits for others it lets them go
/// first, for longer with each further Busy. It may wait.
pub fn work_job<H: Host, P: Pace, R: Wait>(
    rt: &R,
    turnstile: &Turnstile<Box<Station<H>>>,
    pass: Pass<Box<Station<H>>>,
    pace: &P,
    job: u32,
) -> Pass<Box<Station<H>>>
    requires { pass.table ≡ turnstile.now.table.shared.table_id }
    ensures goes { PassGoesOn pass result }
    ensures story { Leads (turning job) pass result picking }
{
    let mut mine = pass;
    let mut count: u64 = 0;
    let mut backoff = Backoff::new();
    for _ in rt.forever() {
        let (back, answer) = turn(rt, turnstile, mine, job);
        mine = back;
        count = count.saturating_add(1);
        pace.between(job, count);
        if ends(&answer) {
            return mine;
        }
        backoff.wait_or_begin(rt, waits(&answer));
    }
    unreachable!()
}

/// Takes jobs, and each one's turns to its end, until no job is left. It may wait.
pub fn work<H: Host + Send, P: Pace, R: Wait>(
    rt: &R,
    turnstile: &Turnstile<Box<Station<H>>>,
    pass: Pass<Box<Station<H>>>,
    pace: &P,
) -> Pass<Box<Station<H>>>
    requires { pass.table ≡ turnstile.now.table.shared.table_id }
    ensures goes { PassGoesOn pass result }

    // Each entering is one event. The first that it gains is a Picked; after each job that is picked come turns of that job
    // alone, up to its end; the last one, and no other, is a Picked with no job.
    ensures story { Leads picking pass result over }
    ensures end { FindsNoneLeft pass result }
{
    let mut mine = pass;
    for _ in rt.forever() {
        let (back, job) = pick(rt, turnstile, mine);
        mine = back;
        let Some(job) = job else {
            return mine;
        };
        mine = work_job(rt, turnstile, mine, pace, job);
    }
    unreachable!()
}
