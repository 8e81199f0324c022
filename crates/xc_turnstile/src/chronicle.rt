ghost use Rattle.std.specs.Prelude.{◌≡◌, length};
ghost use Rattle.xc_turnstile.specs.Meanings.{Meaning, boxed};

/// A value with a journal that only grows, an origin, a count of its events modulo 2^64, and the last of them.
pub trait Chronicle {
    /// What its journal has.
    type Entry;
    /// What it tells of its last event.
    type Event;
    /// What it was started with. Contracts alone name it.
    type Origin;

    ghost meaning: { Meaning Self Self.Entry Self.Event Self.Origin };

    /// The length of its journal.
    fn len(&self) -> u64
        ensures { result ≡ length (meaning.journal self.now) };

    /// How many events it has had, modulo 2^64.
    fn events(&self) -> u64
        ensures { result ≡ meaning.count self.now };

    /// Its last event.
    fn last(&self) -> Option<Self::Event>
        ensures { result ≡ meaning.last self.now };
}

/// A chronicle behind a box means what it means itself.
impl<V: Chronicle> Chronicle for Box<V> {
    type Entry = V::Entry;

    type Event = V::Event;

    type Origin = V::Origin;

    ghost meaning = { boxed V.meaning };

    fn len(&self) -> u64 {
        self.as_ref().len()
    }

    fn events(&self) -> u64 {
        self.as_ref().events()
    }

    fn last(&self) -> Option<V::Event> {
        self.as_ref().last()
    }
}
