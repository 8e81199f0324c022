ghost use Rattle.std.specs.Prelude.{◌≡◌, ◌+◌, ◌%◌, ◌^◌, ◌<◌, length, Some};
ghost use Rattle.xc_data.specs.declared.entry.Event.TheVariants.{Looked};
ghost use Rattle.xc_turnstile.specs.Views.{BeginsWith};

use std::alloc::Global;
use xc_data::{CallList, Entry, Event, HeldList, Items, LateList, NoMemory, Outcome, ReplyList};
use xc_model::Origin;
use xc_turnstile::Chronicle;

/// A journal to which entries are added, one for each event.
#[derive(Drop)]
pub struct Notes {
    alloc: Global,
    origin: Origin,
    journal: Items<Entry>,
    events: u64,
    last: Option<Event>,
    ghost few: { length journal < 2 ^ 32 },
}

impl Chronicle for Notes {
    type Entry = Entry;

    type Event = Event;

    type Origin = Origin;

    ghost meaning = { record { journal = λ n. n.journal; origin = λ n. n.origin; count = λ n. n.events; last = λ n. n.last } };

    fn len(&self) -> u64 {
        self.journal.len() as u64
    }

    fn events(&self) -> u64 {
        self.events
    }

    fn last(&self) -> Option<Event> {
        match &self.last {
            Some(event) => Some(event.again()),
            None => None,
        }
    }
}

impl Notes {
    pub fn new(alloc: Global, origin: Origin) -> Notes {
        Notes {
            alloc,
            origin,
            journal: Items::new(alloc),
            events: 0,
            last: None,
        }
    }

    pub fn len(&self) -> usize {
        self.journal.len()
    }

    /// Adds an entry, if there are memory and room for it.
    pub fn add(&mut self, tx: u32)
        ensures front { BeginsWith self.new.journal self.old.journal }
        ensures origin { self.new.origin ≡ self.old.origin }
        ensures count { self.new.events ≡ (self.old.events + 1) % 2 ^ 64 }
        ensures last { self.new.last ≡ Some (Looked tx) }
    {
        let _added = add_to(self.alloc, &mut self.journal, tx);
        self.events = self.events.wrapping_add(1);
        self.last = Some(Event::Looked(tx));
    }
}

fn add_to(alloc: Global, journal: &mut Items<Entry>, tx: u32) -> Result<(), NoMemory>
    requires { length journal.old < 2 ^ 32 }
    ensures front { BeginsWith journal.new journal.old }
    ensures few { length journal.new < 2 ^ 32 }
{
    if journal.len() >= 1000 {
        return Ok(());
    }
    journal.push(Entry {
        tx,
        job: 1,
        rank: tx,
        began: 0,
        calls: CallList::new(alloc),
        replies: ReplyList::new(alloc),
        held: HeldList::new(alloc),
        outcome: Outcome::Committed {
            late: LateList::new(alloc),
        },
    })
}
