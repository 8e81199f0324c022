ghost use Rattle.std.specs.Prelude.{◌≡◌, ◌+◌, ◌^◌, ◌<◌, All, MatchOption};
ghost use Rattle.xc_poll.specs.Askings.{IsMost, PartsMost};
ghost use Rattle.xc_poll.specs.Crews.{BeginsWithEvents, shares_of};
ghost use Rattle.xc_poll.specs.Tasks.{Task};
ghost use Rattle.xc_turnstile.specs.Views.{BeginsWith};

use crate::task::JobTask;
use xc_host::Host;
use xc_station::Station;
use xc_turnstile::{Pass, Turnstile};

// The place of the task whose pass has the most shares, and how many these are; no place where none has more than the one that asks.
// There are at most 1,000 tasks.
fn find_most<H: Host>(asking: u64, tasks: &[JobTask<'_, H>]) -> (Option<usize>, u64)
    ensures { IsMost asking tasks.now result.0 result.1 }
{
    let mut place = None;
    let mut most = asking;
    let mut at = 0;
    while at < tasks.len() {
        let shares = tasks[at].shares();
        if shares > most {
            place = Some(at);
            most = shares;
        }
        at += 1;
    }
    (place, most)
}

// Half of the pass with the most shares; None where none has two.
pub(crate) fn part_most<H: Host>(
    shop: &Turnstile<Box<Station<H>>>,
    asking: &mut Pass<Box<Station<H>>>,
    tasks: &mut [JobTask<'_, H>],
) -> Option<Pass<Box<Station<H>>>>
    requires table { asking.old.table ≡ shop.now.table.shared.table_id }
    requires homes { All (λ (task : Task). task.home ≡ shop.now.table.shared.table_id) tasks.old }
    ensures { MatchOption result ((asking.new ≡ asking.old) × (tasks.new ≡ tasks.old))
        (λ given. (given.table ≡ asking.old.table) × PartsMost asking.old asking.new tasks.old tasks.new given) }
{
    let (place, most) = find_most(asking.shares(), tasks);
    if most < 2 {
        return None;
    }
    match place {
        None => Some(shop.split(asking)),
        Some(at) => Some(tasks[at].part()),
    }
}

// One pass of these and the tasks' ones.
pub(crate) fn gather<H: Host>(
    shop: &Turnstile<Box<Station<H>>>,
    asking: Pass<Box<Station<H>>>,
    tasks: Vec<JobTask<'_, H>>,
) -> Pass<Box<Station<H>>>
    requires table { asking.table ≡ shop.now.table.shared.table_id }
    requires homes { All (λ (task : Task). task.home ≡ shop.now.table.shared.table_id) tasks.items }
    requires shares { asking.view.shares + shares_of tasks.items < 2 ^ 64 }
    ensures table { result.table ≡ asking.table }
    ensures shares { result.view.shares ≡ asking.view.shares + shares_of tasks.entry.items }
    ensures origin { result.view.origin ≡ asking.view.origin }
    ensures seen { BeginsWith result.view.seen asking.view.seen }
    ensures events { BeginsWithEvents result.view.events asking.view.events }
{
    let mut mine = asking;
    let mut left = tasks;
    while let Some(task) = left.pop() {
        mine = shop.meet(mine, task.done());
    }
    mine
}
