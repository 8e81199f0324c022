ghost use Rattle.std.specs.Prelude.{◌≡◌, ◌<◌, ◌≤◌, ◌-◌, ℕ, length, None, true, false};
ghost use Rattle.std.specs.Prelude.{IsNone, MatchOption, Some};
ghost use Rattle.xc_model.specs.Live.{IsScripted};
ghost use Rattle.xc_model.specs.Measure.{turns_left};
ghost use Rattle.xc_model.specs.Rows.{IsTurn};
ghost use Rattle.xc_data.specs.declared.entry.Event.TheVariants.{Turned, Picked, Looked};
ghost use Rattle.xc_station.specs.Waits.{IsFairWait};
ghost use Rattle.xc_station.specs.Stations.{ChangesOne, IsNextOf, KeepsOpening};
ghost use Rattle.xc_station.specs.Events.{IsEvent, IsTurnTried};
ghost use Rattle.xc_station.specs.Stations.{live_at, now_of, setting_of};
ghost use Rattle.xc_station.specs.Events.{with_event};

use crate::Station;
use xc_data::{Entry, Event, Turn};
use xc_host::Host;
use xc_model::Origin;
use xc_turnstile::Chronicle;

impl<H: Host> Station<H> {
    // One event more, which is the last one from then on.
    fn note(&mut self, event: Event)
        ensures noted { self.new ≡ with_event self.old event }
        ensures few { length self.old.journal ≤ 4294967295 }
        ensures few_jobs { length self.old.jobs ≤ 1000 }
    {
        self.events = self.events.wrapping_add(1);
        self.last = Some(event);
    }

    // A turn with this answer was the last event from then on.
    fn note_turn(&mut self, job: u32, answer: &Turn)
        ensures noted { self.new ≡ with_event self.old (Turned job (Some answer.now)) }
        ensures few { length self.old.journal ≤ 4294967295 }
    {
        self.note(Event::Turned {
            job,
            answer: Some(answer.again()),
        });
    }

    /// One event of the job of this number. docs/ARCHITECTURE.md ("The station") has the states of a job with what is true in each, and
    /// the table of turns with their answers.
    pub fn turn(&mut self, job: u32) -> Turn
        requires { live_at self.old.jobs job ≡ true }
        ensures same { KeepsOpening self.old self.new }
        ensures changes { ChangesOne (job - 1) (now_of H.model self.old) (now_of H.model self.new) }
        ensures row { IsTurn (setting_of H.model self.old) (job - 1) (now_of H.model self.old) result (now_of H.model self.new) }
        ensures falls { IsScripted self.old.opening.script → turns_left (setting_of H.model self.new) (now_of H.model self.new)
            < turns_left (setting_of H.model self.old) (now_of H.model self.old) }
        ensures event { IsEvent self.old self.new (Turned job (Some result)) }

        // A transaction waits for a younger one only, and an idle job for who ended its last attempt. Who waits may mark; nobody else.
        ensures waiting { IsFairWait (setting_of H.model self.old) (job - 1) (now_of H.model self.old) result (now_of H.model self.new) }
    {
        let answer = self.advance(job);
        self.note_turn(job, &answer);
        answer
    }

    /// What `turn` does and answers where the job is live; None exactly where it isn't, and then nothing but the events changes.
    pub fn try_turn(&mut self, job: u32) -> Option<Turn>
        ensures tried { IsTurnTried H.model job (record { old = self.old; new = self.new }) (live_at self.old.jobs job) result }
        ensures event { IsEvent self.old self.new (Turned job result) }
    {
        if self.live(job) {
            return Some(self.turn(job));
        }
        self.note(Event::Turned { job, answer: None });
        None
    }

    /// The live job with the smallest number that isn't taken. It is taken from then on: nothing else changes what is taken, so each
    /// job is handed out once at most.
    pub fn next_job(&mut self) -> Option<u32>
        ensures jobs { self.new.jobs ≡ self.old.jobs }
        ensures same { (self.new.opening ≡ self.old.opening) × (self.new.rules ≡ self.old.rules)
            × (now_of H.model self.new ≡ now_of H.model self.old) }
        ensures first { MatchOption result
            ((number : ℕ) → self.old.taken < number → live_at self.old.jobs number ≡ false)
            (λ job. IsNextOf self.old.jobs self.old.taken job × (self.new.taken ≡ job)) }
        ensures taken { (self.old.taken ≤ self.new.taken) × (self.new.taken ≤ length self.new.jobs) }
        ensures all { IsNone result → self.new.taken ≡ length self.new.jobs }
        ensures few { length self.new.jobs ≤ 1000 }
        ensures event { IsEvent self.old self.new (Picked result) }
    {
        let job = self.take_next();
        self.note(Event::Picked(job));
        job
    }

    /// The journal's length. Nothing but the events changes, and it takes no memory.
    pub fn look(&mut self) -> u32
        ensures length { result ≡ length self.old.journal }
        ensures noted { self.new ≡ with_event self.old (Looked result) }
        ensures event { IsEvent self.old self.new (Looked result) }
    {
        let length = self.entries();
        self.note(Event::Looked(length));
        length
    }
}

impl<H: Host> Chronicle for Station<H> {
    type Entry = Entry;

    type Event = Event;

    type Origin = Origin;

    ghost use Rattle.xc_station.specs.Passes.{meaning_of};

    ghost meaning = { meaning_of };

    fn len(&self) -> u64 {
        self.entries() as u64
    }

    fn events(&self) -> u64 {
        self.events
    }

    fn last(&self) -> Option<Event> {
        match &self.last {
            Some(event) => Some(event.again()),
            None => None,
        }
    }
}
