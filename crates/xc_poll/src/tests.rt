ghost use Rattle.std.specs.Prelude.{◌≡◌, ◌≤◌, ◌^◌, length, IfOk, IfSome, IsSomeAnd};
ghost use Rattle.futures.specs.Task.{Keeps};

use crate::{All, JobTask, Waits};
use futures::Future;
use futures::executor::block_on;
use futures::task::{Context, Poll};
use std::alloc::{AllocGlobal, Global};
use std::process::Abort;
use std::random::RandomSource;
use std::sync::Wait;
use std::test::Fail;
use xc_data::{Chunk, JobEnd, Object};
use xc_memhost::MemHost;
use xc_model::Rules;
use xc_station::Station;
use xc_text::{ParseErr, parse};
use xc_turnstile::{Chronicle, Pass, Turnstile};

// One job of five turns.
const ONE: &str = "word 0 100\njob main\ntx\nload 0 -> x\nstore 0 x + 5\ncommit\nend\n";

// Two jobs that store to one word.
const TWO: &str = "job one\ntx\nstore 0 1\ncommit\nend\njob two\ntx\nstore 0 2\ncommit\nend\n";

const RULES: Rules = Rules {
    attempts: 100,
    patience: 10_000,
    undo_tries: 1,
};

// What is done in one poll.
#[derive(Clone, Copy)]
enum Row {
    SharesOfTwo,
    TwoTasks,
    EndedBefore,
}

// Polls of tasks by hand, all within one poll.
#[derive(Drop)]
struct ByHand<'a> {
    shop: &'a Turnstile<Box<Station<MemHost>>>,
    pass: Option<Pass<Box<Station<MemHost>>>>,
    row: Row,
}

impl Future for ByHand<'_> {
    type Output = (Pass<Box<Station<MemHost>>>, bool);

    ghost can_poll = { λ hand. IsSomeAnd hand.pass
        (λ pass. (pass.table ≡ hand.shop.now.table.shared.table_id) × (pass.view.shares ≡ 2 ^ 32)) };

    ghost gives = { λ hand out. (out.0.table ≡ hand.shop.now.table.shared.table_id) × (out.0.view.shares ≡ 2 ^ 32) };

    fn poll(&mut self, cx: &mut Context<'_>) -> Poll<(Pass<Box<Station<MemHost>>>, bool)> {
        let Some(pass) = self.pass.take() else {
            unreachable!()
        };
        Poll::Ready(match self.row {
            Row::SharesOfTwo => shares_of_two(self.shop, pass, cx),
            Row::TwoTasks => two_tasks(self.shop, pass, cx),
            Row::EndedBefore => ended_before(self.shop, pass, cx),
        })
    }
}

// What a poll says.
#[derive(Clone, Copy, PartialEq, Eq)]
enum Said {
    Pending,
    Done,
    GaveUp,
    NoEnd,
}

fn what(told: &Poll<Option<JobEnd>>) -> Said {
    match told {
        Poll::Pending => Said::Pending,
        Poll::Ready(None) => Said::NoEnd,
        Poll::Ready(Some(JobEnd::Done)) => Said::Done,
        Poll::Ready(Some(JobEnd::GaveUp(_) | JobEnd::JournalFull | JobEnd::NoMemory)) =>
            Said::GaveUp,
    }
}

// Whether one poll says this, and keeps this reason.
fn says(
    task: &mut JobTask<'_, MemHost>,
    cx: &mut Context<'_>,
    expected: Said,
    why: Option<Waits>,
) -> bool
    ensures home { task.new.home ≡ task.old.home }
    ensures shares { task.new.pass.view.shares ≡ task.old.pass.view.shares }
    ensures kept { Keeps cx.old cx.new }
{
    let told = task.poll(cx);
    what(&told) == expected && task.why() == why
}

// A task whose share is two, up to its end.
fn shares_of_two(
    shop: &Turnstile<Box<Station<MemHost>>>,
    pass: Pass<Box<Station<MemHost>>>,
    cx: &mut Context<'_>,
) -> (Pass<Box<Station<MemHost>>>, bool)
    requires table { pass.table ≡ shop.now.table.shared.table_id }
    requires shares { pass.view.shares ≡ 2 ^ 32 }
    ensures table { result.0.table ≡ shop.now.table.shared.table_id }
    ensures shares { result.0.view.shares ≡ 2 ^ 32 }
    ensures kept { Keeps cx.old cx.new }
{
    let mut task = JobTask::new(shop, pass, 1, 2);
    let fresh = task.why().is_none();
    let first = says(&mut task, cx, Said::Pending, Some(Waits::Spent));
    let second = says(&mut task, cx, Said::Pending, Some(Waits::Spent));
    let third = says(&mut task, cx, Said::Done, None);
    (task.done(), fresh && first && second && third)
}

// Two tasks in turn, of which the first waits for the second in the end.
fn two_tasks(
    shop: &Turnstile<Box<Station<MemHost>>>,
    pass: Pass<Box<Station<MemHost>>>,
    cx: &mut Context<'_>,
) -> (Pass<Box<Station<MemHost>>>, bool)
    requires table { pass.table ≡ shop.now.table.shared.table_id }
    requires shares { pass.view.shares ≡ 2 ^ 32 }
    ensures table { result.0.table ≡ shop.now.table.shared.table_id }
    ensures shares { result.0.view.shares ≡ 2 ^ 32 }
    ensures kept { Keeps cx.old cx.new }
{
    let mut pass = pass;
    let other = shop.split(&mut pass);
    let mut one = JobTask::new(shop, pass, 1, 1);
    let mut two = JobTask::new(shop, other, 2, 2);
    let meets = Waits::Met {
        object: Object::Word(0),
        holder: 2,
    };
    let first = says(&mut one, cx, Said::Pending, Some(Waits::Spent));
    let second = says(&mut two, cx, Said::Pending, Some(Waits::Spent));
    let third = says(&mut one, cx, Said::Pending, Some(meets));
    (shop.meet(one.done(), two.done()), first && second && third)
}

// A task that has ended, and one whose job has.
fn ended_before(
    shop: &Turnstile<Box<Station<MemHost>>>,
    pass: Pass<Box<Station<MemHost>>>,
    cx: &mut Context<'_>,
) -> (Pass<Box<Station<MemHost>>>, bool)
    requires table { pass.table ≡ shop.now.table.shared.table_id }
    requires shares { pass.view.shares ≡ 2 ^ 32 }
    ensures table { result.0.table ≡ shop.now.table.shared.table_id }
    ensures shares { result.0.view.shares ≡ 2 ^ 32 }
    ensures kept { Keeps cx.old cx.new }
{
    let mut task = JobTask::new(shop, pass, 1, 10);
    let first = says(&mut task, cx, Said::Done, None);
    let again = says(&mut task, cx, Said::NoEnd, None);
    let mut late = JobTask::new(shop, task.done(), 1, 10);
    let last = says(&mut late, cx, Said::NoEnd, None);
    (late.done(), first && again && last)
}

// A station with this script, in its box.
fn boxed(alloc: Global, script: &str) -> Result<Option<Box<Station<MemHost>>>, ParseErr>
    ensures { IfOk result (λ o. IfSome o (λ boxed. length boxed.value.journal ≤ 4294967295)) }
{
    let script = parse(alloc, &Chunk::new(alloc, script.as_bytes())?)?;
    let Ok(station) = Station::start(alloc, MemHost::new(alloc), script, RULES) else {
        return Ok(None);
    };
    if station.len() > 10_000 {
        return Ok(None);
    }
    Ok(Box::new(alloc, station).ok())
}

// Whether the polls of a row say what they should.
fn passes<R: Abort + Wait + RandomSource + AllocGlobal>(
    rt: &R,
    script: &str,
    row: Row,
) -> Result<bool, ParseErr> {
    let Some(boxed) = boxed(rt.alloc(), script)? else {
        return Ok(false);
    };
    let Ok((shop, pass)) = Turnstile::new(rt.alloc(), boxed) else {
        return Ok(false);
    };
    let hand = ByHand {
        shop: &shop,
        pass: Some(pass),
        row,
    };
    let (pass, passed) = block_on(rt, hand).expect(rt, "an executor");
    shop.close(pass);
    Ok(passed)
}

#[test]
fn a_job_of_five_turns_in_polls_of_two(rt: HostRuntime) -> Result<(), Fail> {
    assert!(rt; passes(&rt, ONE, Row::SharesOfTwo)?);
    Ok(())
}

#[test]
fn the_older_job_meets_the_younger(rt: HostRuntime) -> Result<(), Fail> {
    assert!(rt; passes(&rt, TWO, Row::TwoTasks)?);
    Ok(())
}

#[test]
fn a_job_that_ended_before_has_no_end(rt: HostRuntime) -> Result<(), Fail> {
    assert!(rt; passes(&rt, ONE, Row::EndedBefore)?);
    Ok(())
}

// How many entries the journal has behind all rounds, where no job is left.
fn entries<R: Abort + Wait + RandomSource + AllocGlobal>(
    rt: &R,
    script: &str,
    share: u32,
) -> Result<Option<u64>, ParseErr>
    requires { 1 ≤ share }
{
    let Some(boxed) = boxed(rt.alloc(), script)? else {
        return Ok(None);
    };
    let Ok((shop, pass)) = Turnstile::new(rt.alloc(), boxed) else {
        return Ok(None);
    };
    let all = All::new(rt.alloc(), &shop, pass, share);
    let pass = block_on(rt, all).expect(rt, "an executor");
    let station = shop.close(pass);
    if station.live(1) || station.live(2) {
        return Ok(None);
    }
    Ok(Some(station.len()))
}

#[test]
fn all_jobs_end(rt: HostRuntime) -> Result<(), Fail> {
    assert!(rt; entries(&rt, ONE, 1)? == Some(1));
    assert!(rt; entries(&rt, TWO, 4)? == Some(2));
    Ok(())
}
