ghost use Rattle.std.specs.Prelude.{◌≡◌, ◌≤◌, length};
ghost use Rattle.std.specs.Thread.{IsSync};
ghost use Rattle.xc_runner.specs.Walks.{FindsNoneLeft};
ghost use Rattle.xc_station.specs.Stations.{IsFrontOf, KeepsOrigin};
ghost use Rattle.xc_turnstile.specs.Insides.{Together};

use crate::pace::Pace;
use crate::worker::work;
use std::alloc::AllocFailed;
use std::sync::Wait;
use std::thread::{Threads, join};
use xc_host::Host;
use xc_station::Station;
use xc_turnstile::{Pass, Turnstile};

/// So many workers, each in a thread of its own with its part of the pass, all met at the end. It takes no memory, and no
/// start can be refused: a worker that gets no thread works here. Where the pass has too few shares, fewer work.
pub fn work_together<H: Host + Send, P: Pace + Sync, R: Threads + Wait + Sync>(
    rt: &R,
    turnstile: &Turnstile<Box<Station<H>>>,
    pass: Pass<Box<Station<H>>>,
    workers: u32,
    pace: &P,
) -> Pass<Box<Station<H>>>
    requires { pass.table ≡ turnstile.now.table.shared.table_id }
    ensures together { Together pass result }

    // Somebody went on until no job was left.
    ensures end { FindsNoneLeft pass result }
{
    if workers < 2 || pass.shares() < 2 {
        return work(rt, turnstile, pass, pace);
    }
    let mut mine = pass;
    let other = turnstile.split(&mut mine);
    let (a, b) = join(
        rt,
        || -> Pass<Box<Station<H>>>
            requires { IsSync R.row × (mine.table ≡ turnstile.now.table.shared.table_id) }
            ensures together { Together mine result }
            ensures end { FindsNoneLeft mine result }
        { work_together(rt, turnstile, mine, workers - workers / 2, pace) },
        || -> Pass<Box<Station<H>>>
            requires { IsSync R.row × (other.table ≡ turnstile.now.table.shared.table_id) }
            ensures together { Together other result }
            ensures end { FindsNoneLeft other result }
        { work_together(rt, turnstile, other, workers / 2, pace) },
    );
    turnstile.meet(a, b)
}

// What `run_workers` does, with the station in its box.
fn run_boxed<H: Host + Send, P: Pace + Sync, R: AllocGlobal + Threads + Wait + Sync>(
    rt: &R,
    boxed: Box<Station<H>>,
    workers: u32,
    pace: &P,
) -> Box<Station<H>>
    requires few { length boxed.value.journal ≤ 4294967295 }
    ensures origin { KeepsOrigin boxed.value result.value }
    ensures front { IsFrontOf boxed.value.journal result.value.journal }
{
    match Turnstile::new(rt.alloc(), boxed) {
        Ok((turnstile, pass)) => {
            let pass = work_together(rt, &turnstile, pass, workers, pace);
            turnstile.close(pass)
        }
        Err(boxed) => boxed,
    }
}

/// Hands a station to so many workers, and takes it back when all have come to their end. Where there is no memory for its box or
/// a turnstile the station comes back as it was.
pub fn run_workers<H: Host + Send, P: Pace + Sync, R: AllocGlobal + Threads + Wait + Sync>(
    rt: &R,
    station: Station<H>,
    workers: u32,
    pace: &P,
) -> Station<H>
    requires few { length station.journal ≤ 4294967295 }
    ensures origin { KeepsOrigin station result }
    ensures front { IsFrontOf station.journal result.journal }
{
    match Box::new(rt.alloc(), station) {
        Ok(boxed) => Box::into_inner(run_boxed(rt, boxed, workers, pace)),
        Err(failed) => {
            let AllocFailed { value } = failed;
            value
        }
    }
}
