ghost use Rattle.std.specs.Prelude.{◌≡◌, ◌<◌, ◌≤◌, ◌-◌, ◌+◌, ℕ, length, ◌&&◌, None, false};
ghost use Rattle.std.specs.Prelude.{IsNone, MatchOption, Some};
ghost use Rattle.xc_station.specs.Jobs.{is_live};
ghost use Rattle.xc_station.specs.Names.{IsNameOf, block_name_at};
ghost use Rattle.xc_station.specs.Stations.{IsNextOf, KeepsEvents};
ghost use Rattle.xc_model.specs.Live.{IsScripted};
ghost use Rattle.xc_station.specs.Stations.{entries_held, live_at, now_of};

mod clients;
mod events;
mod finish;
mod handing;
mod run_out;
mod start;
mod turns;

use crate::calls::Shared;
use crate::job::Job;
use crate::run_result::Opening;
use std::alloc::Global;
use std::marker::Model;
use xc_data::{Entry, Event, Ident, JobLine};
use xc_host::Host;
use xc_journal::Journal;
use xc_maps::IdentMap;
use xc_model::Rules;
use xc_roomy::Roomy;

/// The core, over a host. Jobs are numbered from 1, in the order of their starts.
#[derive(Drop)]
pub struct Station<H: Host> {
    alloc: Global,
    opening: Opening,
    // The place of each block in the script.
    places: IdentMap<usize>,
    rules: Rules,
    shared: Shared<H>,
    journal: Journal,
    // How many transactions are active; each has room for its entry in the journal.
    active: u32,
    jobs: Vec<Job>,
    // Room for a line of each job.
    lines: Roomy<JobLine>,
    // For 0 and for each job a greater number: the jobs between have ended. One past the last is there where no more follow.
    ahead: Vec<u32>,
    // Jobs in the places below this one were taken, or have ended.
    taken: usize,
    // How many events there were, modulo 2^64, and the last of them.
    events: u64,
    last: Option<Event>,
}

impl<H: Host> Model for Station<H> {
    ghost use Rattle.std.specs.Coded.{codes};
    ghost use Rattle.xc_script.specs.Position.{coded_position};
    ghost use Rattle.xc_sentinel.specs.Seated.{coded_seats};
    ghost use Rattle.xc_station.specs.Stations.{StationView};
    ghost use Rattle.xc_station.specs.Whole.{IsWhole};

    ghost Value = { StationView H };

    ghost coded = { Prim.hlevel (codes, coded_position, coded_seats) };

    ghost view = { λ s. record {
      opening = s.opening;
      rules = s.rules;
      host = s.shared.host;
      kept = s.shared.buffers.kept;
      words = s.shared.words;
      journal = s.journal.items;
      gone = s.journal.gone;
      jobs = s.jobs.items;
      taken = s.taken;
      seats = s.shared.sentinels.seats;
      started = s.shared.started.items;
      events = s.events;
      last = s.last;
    } };

    ghost invariant = { λ s. IsWhole H.model (record {
      opening = s.opening;
      places = s.places;
      rules = s.rules;
      shared = s.shared;
      journal = s.journal;
      active = s.active;
      jobs = s.jobs;
      lines = s.lines;
      ahead = s.ahead;
      taken = s.taken;
    }) };
}

// The name of the job of this number; none where no such job was started.
fn name_in(started: &[Ident], job: u32) -> Option<Ident>
    ensures { result ≡ block_name_at started.now job }
{
    if job == 0 {
        return None;
    }
    started.get(job as usize - 1).copied()
}

impl<H: Host> Station<H> {
    /// Whether the job of this number exists and hasn't ended.
    pub fn live(&self, job: u32) -> bool
        ensures { result ≡ live_at self.now.jobs job }
    {
        if job == 0 {
            return false;
        }
        match self.jobs.get(job as usize - 1) {
            Some(job) => job.is_live(),
            None => false,
        }
    }

    /// How many jobs are live or have ended. A started job is among them from its starter's entry on.
    pub fn count(&self) -> u32
        ensures all { result ≡ length self.now.jobs }
        ensures few { result ≤ 1000 }
    {
        self.jobs.len() as u32
    }

    /// The entries of the journal that wait to be handed out. It takes no memory.
    pub fn journal(&self) -> &[Entry]
        ensures held { result.now ≡ entries_held self.now }

        // Of a script these are all.
        ensures all { IsScripted self.now.opening.script → result.now ≡ self.now.journal }
    {
        self.journal.as_slice()
    }

    /// The block of the job of this number; `None` exactly where no such job was started. It takes no memory.
    pub fn name(&self, job: u32) -> Option<Ident>
        ensures started { result ≡ block_name_at self.now.started job }

        // That of a job which is live or has ended is the one that the journal tells.
        ensures told { 1 ≤ job → job ≤ length self.now.jobs → IsNameOf self.now.opening.script self.now.journal job result }
    {
        name_in(self.shared.started.as_slice(), job)
    }

    /// The live job with the smallest number above this one. A job that has ended isn't looked at again from the same number on.
    pub fn next_live(&mut self, above: u32) -> Option<u32>
        requires { above ≤ length self.old.jobs }
        ensures same { self.new ≡ self.old }
        ensures next { MatchOption result ((number : ℕ) → above < number → live_at self.old.jobs number ≡ false)
            (λ job. IsNextOf self.old.jobs above job) }
    {
        let mut next = self.ahead[above as usize];
        while next <= self.count() && !self.live(next) {
            next = self.ahead[next as usize];
        }
        self.ahead[above as usize] = next;
        if next <= self.count() {
            Some(next)
        } else {
            None
        }
    }

    // The live job with the smallest number that isn't taken. It is taken from then on.
    fn take_next(&mut self) -> Option<u32>
        ensures jobs { self.new.jobs ≡ self.old.jobs }
        ensures quiet { KeepsEvents self.old self.new }
        ensures same { (self.new.opening ≡ self.old.opening) × (self.new.rules ≡ self.old.rules)
            × (now_of H.model self.new ≡ now_of H.model self.old) }
        ensures first { MatchOption result
            ((number : ℕ) → self.old.taken < number → live_at self.old.jobs number ≡ false)
            (λ job. IsNextOf self.old.jobs self.old.taken job × (self.new.taken ≡ job)) }
        ensures taken { (self.old.taken ≤ self.new.taken) × (self.new.taken ≤ length self.new.jobs) }
        ensures all { IsNone result → self.new.taken ≡ length self.new.jobs }
    {
        while self.taken < self.jobs.len() {
            self.taken += 1;
            let job = self.taken as u32;
            if self.live(job) {
                return Some(job);
            }
        }
        None
    }
}
