ghost use Rattle.std.specs.Prelude.{◌≡◌, ◌≤◌, []};
ghost use Rattle.std.specs.List.{list_all};
ghost use Rattle.futures.specs.Task.{Keeps};
ghost use Rattle.xc_poll.specs.Alls.{ArePolled, is_crew_over};
ghost use Rattle.xc_poll.specs.Askings.{AreAsked, HasAsked, TakesInOrLeaves};
ghost use Rattle.xc_poll.specs.Crews.{IsGathered, Rise, jobs_of};
ghost use Rattle.xc_poll.specs.Tasks.{Task};

use crate::asking::{Asked, ask};
use crate::parting::{gather, part_most};
use crate::task::JobTask;
use futures::Future;
use futures::task::Context;
use std::alloc::Global;
use std::marker::Model;
use xc_host::Host;
use xc_station::Station;
use xc_turnstile::{Pass, Turnstile};

// After this many askings in a round comes one more, the last.
const ASKINGS: u32 = 1000;

/// The pass that asks for jobs, and the tasks of those that were taken in.
#[derive(Drop)]
pub(crate) struct Crew<'a, H: Host> {
    shop: &'a Turnstile<Box<Station<H>>>,
    // None only within an asking.
    asking: Option<Pass<Box<Station<H>>>>,
    tasks: Vec<JobTask<'a, H>>,
    // The greatest number of their jobs.
    top: u32,
    share: u32,
}

impl<'a, H: Host> Model for Crew<'a, H> {
    ghost use Rattle.std.specs.Prelude.{IsSome};
    ghost use Rattle.xc_poll.specs.Crews.{Crew as Seen, IsCrewSound};
    ghost use Rattle.xc_poll.specs.Tasks.{known_of};

    ghost Value = { Seen };

    ghost view = { λ c. record {
      home = c.shop.now.table.shared.table_id;
      asking = known_of c.asking;
      tasks = c.tasks.items;
      top = c.top;
      share = c.share;
    } };

    ghost invariant = { λ c. IsSome c.asking × IsCrewSound (record {
      home = c.shop.now.table.shared.table_id;
      asking = known_of c.asking;
      tasks = c.tasks.items;
      top = c.top;
      share = c.share;
    }) };
}

// Polls each task, in order.
fn poll_each<H: Host>(tasks: &mut [JobTask<'_, H>], cx: &mut Context<'_>)
    ensures polled { ArePolled tasks.old tasks.new }
    ensures kept { Keeps cx.old cx.new }
{
    for task in tasks {
        let _result = task.poll(cx);
    }
}

// Whether each task has answered Ready.
fn are_ready<H: Host>(tasks: &[JobTask<'_, H>]) -> bool
    ensures { result ≡ list_all (λ (task : Task). task.ready) tasks.now }
{
    tasks.iter().all(|task| task.is_ready())
}

impl<'a, H: Host> Crew<'a, H> {
    // No tasks yet. It takes no memory.
    pub(crate) fn new(
        alloc: Global,
        shop: &'a Turnstile<Box<Station<H>>>,
        pass: Pass<Box<Station<H>>>,
        share: u32,
    ) -> Crew<'a, H>
        requires table { pass.table ≡ shop.now.table.shared.table_id }
        requires share { 1 ≤ share }
        ensures { result ≡ record { home = pass.table; asking = pass; tasks = []; top = 0; share = share } }
    {
        let _shares = pass.shares();
        Crew {
            shop,
            asking: Some(pass),
            tasks: Vec::new(alloc),
            top: 0,
            share,
        }
    }

    // Polls each task, in rising job number. One that has ended takes no turn.
    pub(crate) fn poll_tasks(&mut self, cx: &mut Context<'_>)
        ensures polled { ArePolled self.old.tasks self.new.tasks }
        ensures same { self.new ≡ record self.old { tasks = self.new.tasks } }
        ensures kept { Keeps cx.old cx.new }
    {
        poll_each(self.tasks.as_mut_slice(), cx);
    }

    // Asks for a job.
    fn ask_once(&mut self) -> Asked
        ensures asked { HasAsked self.old.asking self.new.asking result }
        ensures same { self.new ≡ record self.old { asking = self.new.asking } }
    {
        let Some(pass) = self.asking.take() else {
            unreachable!()
        };
        let (pass, asked) = ask(self.shop, pass);
        self.asking = Some(pass);
        asked
    }

    // Takes a job in, with half of a pass that has the most shares; or leaves it, where there is no memory or no pass has two shares.
    // A job that isn't above the others is left too, and the station hands out none.
    fn take_in(&mut self, job: u32)
        ensures { TakesInOrLeaves self.old self.new job }
    {
        if job <= self.top || self.tasks.reserve(1).is_err() {
            return;
        }
        let Some(asking) = &mut self.asking else {
            unreachable!()
        };
        let given = part_most(self.shop, asking, self.tasks.as_mut_slice());
        let Some(given) = given else { return };
        self.tasks
            .push_reserved(JobTask::new(self.shop, given, job, self.share));
        self.top = job;
    }

    // Asks for jobs, up to 1,001 times, and takes in those that are handed out.
    pub(crate) fn ask_all(&mut self) -> Asked
        ensures { AreAsked self.old self.new result }
    {
        let mut count = 0;
        while count < ASKINGS {
            let asked = self.ask_once();
            let Asked::Job(job) = asked else {
                return asked;
            };
            self.take_in(job);
            count += 1;
        }
        let last = self.ask_once();
        if let Asked::Job(job) = last {
            self.take_in(job);
        }
        last
    }

    // Whether all is done, where the last asking was answered so.
    pub(crate) fn is_over(&self, last: Asked) -> bool
        ensures over { result ≡ is_crew_over self.now last }
        ensures rise { Rise 0 (jobs_of self.now.tasks) self.now.top }
    {
        match last {
            Asked::Held(_) | Asked::Job(_) => false,
            Asked::Nothing => are_ready(self.tasks.as_slice()),
        }
    }

    // One pass of all.
    pub(crate) fn gathered(self) -> Pass<Box<Station<H>>>
        ensures { IsGathered self.entry result }
    {
        let Crew {
            shop,
            asking,
            tasks,
            ..
        } = self;
        let Some(asking) = asking else { unreachable!() };
        gather(shop, asking, tasks)
    }
}
