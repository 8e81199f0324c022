//! The turns of all jobs, which are polled as one future.

ghost use Rattle.std.specs.Prelude.{◌≡◌, ◌≤◌, ◌^◌, [], Some, length};
ghost use Rattle.xc_model.specs.Live.{IsScripted};
ghost use Rattle.xc_station.specs.Passes.{meaning_of};
ghost use Rattle.xc_station.specs.Stations.{KeepsOrigin, NobodyLives};
ghost use Rattle.xc_turnstile.specs.Views.{BeginsWith};

use futures::executor::block_on;
use std::alloc::{AllocFailed, AllocGlobal};
use std::random::RandomSource;
use std::sync::Wait;
use xc_host::Host;
use xc_poll::All;
use xc_runner::enter;
use xc_station::{Station, drain};
use xc_turnstile::{Pass, Turnstile};

// Polls all jobs until none is left. Where the executor fails what it held is gone: a pass that was kept takes the station out.
fn poll_all<H: Host, R: AllocGlobal + Wait + RandomSource>(
    rt: &R,
    turnstile: Turnstile<Box<Station<H>>>,
    pass: Pass<Box<Station<H>>>,
    share: u32,
) -> Box<Station<H>>
    requires table { pass.table ≡ turnstile.table.shared.table_id }
    requires shares { pass.view.shares ≡ 2 ^ 32 }
    requires share { 1 ≤ share }
    ensures seen { BeginsWith result.value.journal pass.view.seen }
    ensures origin { pass.view.origin ≡ Some (meaning_of.origin result.value) }
{
    let mut kept = pass;
    let given = turnstile.split(&mut kept);
    let all = All::new(rt.alloc(), &turnstile, given, share);
    match block_on(rt, all) {
        Ok(back) => {
            let whole = turnstile.meet(kept, back);
            turnstile.close(whole)
        }
        Err(_) => {
            let (station, hold) = enter(rt, &turnstile, kept);
            turnstile.abandon(hold);
            station
        }
    }
}

// The same with the station in its box. Without memory for a turnstile it stays as it was.
fn poll_boxed<H: Host, R: AllocGlobal + Wait + RandomSource>(
    rt: &R,
    boxed: Box<Station<H>>,
    share: u32,
) -> Box<Station<H>>
    requires few { length boxed.value.journal ≤ 4294967295 }
    requires share { 1 ≤ share }
    ensures origin { KeepsOrigin boxed.value result.value }
{
    match Turnstile::new(rt.alloc(), boxed) {
        Ok((turnstile, pass)) => poll_all(rt, turnstile, pass, share),
        Err(boxed) => boxed,
    }
}

// Hands a station to the executor, and takes it back. Without memory for its box it stays as it was.
fn poll_jobs<H: Host, R: AllocGlobal + Wait + RandomSource>(
    rt: &R,
    station: Station<H>,
    share: u32,
) -> Station<H>
    requires few { length station.journal ≤ 4294967295 }
    requires share { 1 ≤ share }
    ensures origin { KeepsOrigin station result }
{
    match Box::new(rt.alloc(), station) {
        Ok(boxed) => Box::into_inner(poll_boxed(rt, boxed, share)),
        Err(failed) => {
            let AllocFailed { value } = failed;
            value
        }
    }
}

/// All jobs are polled in this thread, at most `share` turns of a job at a time; what is left of them then is taken in rounds.
/// It may wait.
pub fn take_cooperatively<H: Host, R: AllocGlobal + Wait + RandomSource>(
    rt: &R,
    station: Station<H>,
    share: u32,
) -> Station<H>
    requires scripted { IsScripted station.opening.script }
    requires journal { station.journal ≡ [] }
    requires share { 1 ≤ share }
    ensures origin { KeepsOrigin station result }
    ensures ended { NobodyLives result.jobs }
{
    let mut station = poll_jobs(rt, station, share);
    drain(&mut station);
    station
}
