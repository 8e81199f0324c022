ghost use Rattle.std.specs.Prelude.{◌≡◌, ◌≤◌, [], true, IsSome, IsSomeAnd, Some, ⊤};
ghost use Rattle.futures.specs.Task.{Covers, Keeps};
ghost use Rattle.futures.specs.Poll.{IfReady, OnPending};
ghost use Rattle.xc_poll.specs.Alls.{GivesAll, IsAllPolled};
ghost use Rattle.xc_poll.specs.Crews.{Crew as Seen};
ghost use Rattle.xc_station.specs.Passes.{StationPass};

use crate::crew::Crew;
use futures::Future;
use futures::task::{Context, Poll};
use std::alloc::Global;
use std::marker::Model;
use xc_host::Host;
use xc_station::Station;
use xc_turnstile::{Pass, Turnstile};

/// All jobs of a station as one future. Each poll is a round: it polls the tasks of the jobs that were handed out, and then asks
/// for more. What it gives is one pass with all shares.
#[derive(Drop)]
pub struct All<'a, H: Host> {
    // None within a poll, and once the pass was given.
    crew: Option<Crew<'a, H>>,
}

impl<'a, H: Host> Model for All<'a, H> {
    ghost use Rattle.std.specs.Prelude.{Option};
    ghost use Rattle.xc_poll.specs.Crews.{Crew as Seen};

    ghost Value = { Option Seen };

    ghost view = { λ all. all.crew };
}

impl<'a, H: Host> All<'a, H> {
    /// No job is taken in yet. A poll of a job takes at most `share` turns.
    /// It takes no memory: the allocator is for the tasks.
    pub fn new(
        alloc: Global,
        shop: &'a Turnstile<Box<Station<H>>>,
        pass: Pass<Box<Station<H>>>,
        share: u32,
    ) -> All<'a, H>
        requires table { pass.table ≡ shop.now.table.shared.table_id }
        requires share { 1 ≤ share }
        ensures { result ≡ Some (record { home = pass.table; asking = pass; tasks = []; top = 0; share = share }) }
    {
        All {
            crew: Some(Crew::new(alloc, shop, pass, share)),
        }
    }
}

impl<H: Host> Future for All<'_, H> {
    type Output = Pass<Box<Station<H>>>;

    ghost can_poll = { λ all. IsSome all };

    // A poll that is pending has asked for another, whatever the sources do.
    ghost needs = { λ _ _. ⊤ };

    ghost gives = { λ all back. IsSomeAnd all (λ crew. GivesAll crew back) };

    fn poll(&mut self, cx: &mut Context<'_>) -> Poll<Pass<Box<Station<H>>>>
        requires { IsSome self.old }
        ensures value { IfReady result (λ back. IsSomeAnd self.old (λ crew. GivesAll crew back)) }
        ensures again { OnPending result (IsSome self.new) }
        ensures same { OnPending result ((back : StationPass) → IsSomeAnd self.new (λ crew. GivesAll crew back)
            → IsSomeAnd self.old (λ crew. GivesAll crew back)) }
        ensures registered { OnPending result (Covers cx.new (λ _. ⊤)) }
        ensures kept { Keeps cx.old cx.new }
        ensures polled { IsSomeAnd self.old (λ crew. IsAllPolled crew self.new result) }
        ensures yielded { OnPending result (cx.new.is_woken ≡ true) }
    {
        let Some(mut crew) = self.crew.take() else {
            unreachable!()
        };
        crew.poll_tasks(cx);
        let last = crew.ask_all();
        if crew.is_over(last) {
            return Poll::Ready(crew.gathered());
        }
        self.crew = Some(crew);
        cx.yield_now()
    }
}
