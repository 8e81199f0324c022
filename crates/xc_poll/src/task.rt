ghost use Rattle.std.specs.Prelude.{◌≡◌, ◌≤◌, None, Option, false, true, ⊤};
ghost use Rattle.xc_data.specs.declared.entry.JobEnd.{JobEnd};
ghost use Rattle.futures.specs.Task.{Covers, Keeps};
ghost use Rattle.futures.specs.Poll.{IfReady, OnPending};
ghost use Rattle.xc_poll.specs.Polls.{IsPolled};
ghost use Rattle.xc_turnstile.specs.Views.{given_half, kept_half};

use crate::round::{RoundStop, Waits, take_turns};
use futures::Future;
use futures::task::{Context, Poll};
use std::marker::Model;
use xc_data::JobEnd;
use xc_host::Host;
use xc_station::Station;
use xc_turnstile::{Pass, Turnstile};

/// A job of a station, to be polled. A poll takes at most `share` turns, one entering for each.
#[derive(Drop)]
pub struct JobTask<'a, H: Host> {
    shop: &'a Turnstile<Box<Station<H>>>,
    // None only within a poll.
    pass: Option<Pass<Box<Station<H>>>>,
    job: u32,
    share: u32,
    ready: bool,
    why: Option<Waits>,
}

impl<'a, H: Host> Model for JobTask<'a, H> {
    ghost use Rattle.std.specs.Prelude.{◌≡◌, ◌≤◌, IsSome, None, true};
    ghost use Rattle.xc_poll.specs.Tasks.{Task, known_of};

    ghost Value = { Task };

    ghost view = { λ t. record {
      home = t.shop.now.table.shared.table_id;
      pass = known_of t.pass;
      job = t.job;
      share = t.share;
      ready = t.ready;
      why = t.why;
    } };

    ghost invariant = { λ t. IsSome t.pass × ((known_of t.pass).table ≡ t.shop.now.table.shared.table_id) × (1 ≤ t.share)
        × (t.ready ≡ true → t.why ≡ None) };
}

impl<'a, H: Host> JobTask<'a, H> {
    pub fn new(
        shop: &'a Turnstile<Box<Station<H>>>,
        pass: Pass<Box<Station<H>>>,
        job: u32,
        share: u32,
    ) -> JobTask<'a, H>
        requires table { pass.table ≡ shop.now.table.shared.table_id }
        requires share { 1 ≤ share }
        ensures { result ≡ record { home = pass.table; pass = pass; job = job; share = share; ready = false; why = None } }
    {
        JobTask {
            shop,
            pass: Some(pass),
            job,
            share,
            ready: false,
            why: None,
        }
    }

    /// Why the last poll was pending; None before the first poll, and once the task was ready.
    pub fn why(&self) -> Option<Waits>
        ensures { result ≡ self.now.why }
    {
        match &self.why {
            Some(why) => Some(why.again()),
            None => None,
        }
    }

    // Whether it was ready.
    pub(crate) fn is_ready(&self) -> bool
        ensures { result ≡ self.now.ready }
    {
        self.ready
    }

    // The shares of its pass.
    pub(crate) fn shares(&self) -> u64
        ensures { result ≡ self.now.pass.view.shares }
    {
        match &self.pass {
            Some(pass) => pass.shares(),
            None => unreachable!(),
        }
    }

    // Half of its pass is given away.
    pub(crate) fn part(&mut self) -> Pass<Box<Station<H>>>
        requires { 2 ≤ self.old.pass.view.shares }
        ensures kept { self.new ≡ record self.old { pass = record self.old.pass { view = kept_half self.old.pass.view } } }
        ensures given { result ≡ record self.old.pass { view = given_half self.old.pass.view } }
        ensures home { result.table ≡ self.old.home }
    {
        let Some(pass) = &mut self.pass else {
            unreachable!()
        };
        self.shop.split(pass)
    }

    /// The pass back.
    pub fn done(self) -> Pass<Box<Station<H>>>
        ensures pass { result ≡ self.entry.pass }
        ensures home { result.table ≡ self.entry.home }
    {
        let JobTask { pass, .. } = self;
        let Some(pass) = pass else { unreachable!() };
        pass
    }
}

impl<H: Host> Future for JobTask<'_, H> {
    type Output = Option<JobEnd>;

    // A poll that is pending has asked for another, whatever the sources do.
    ghost needs = { λ _ _. ⊤ };

    fn poll(&mut self, cx: &mut Context<'_>) -> Poll<Option<JobEnd>>
        ensures value { IfReady result (λ _. ⊤) }
        ensures again { OnPending result ⊤ }
        ensures same { OnPending result ((end : Option JobEnd) → ⊤ → ⊤) }
        ensures registered { OnPending result (Covers cx.new (λ _. ⊤)) }
        ensures kept { Keeps cx.old cx.new }
        ensures polled { IsPolled self.old self.new result }
        ensures yielded { OnPending result (cx.new.is_woken ≡ true) }
    {
        if self.ready {
            return Poll::Ready(None);
        }
        let Some(pass) = self.pass.take() else {
            unreachable!()
        };
        let (pass, stop) = take_turns(self.shop, pass, self.job, self.share);
        self.pass = Some(pass);
        match stop {
            RoundStop::Ended(end) => {
                self.ready = true;
                self.why = None;
                Poll::Ready(end)
            }
            RoundStop::Waits(why) => {
                self.why = Some(why);
                cx.yield_now()
            }
        }
    }
}
