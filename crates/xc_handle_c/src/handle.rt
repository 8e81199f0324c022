ghost use Rattle.std.specs.Prelude.{◌≡◌};
ghost use Rattle.std.specs.Option.{MatchOption};
ghost use Rattle.std.specs.declared.option.Option.{Option};
ghost use Rattle.std.specs.declared.option.Option.TheVariants.{None, Some};
ghost use Rattle.std.specs.Coded.{coded_option};
ghost use Rattle.xc_handle_c.specs.declared.counter.Counter.{Counter};
ghost use Rattle.xc_handle_c.specs.contracts.counter.Counter.{the_row};
ghost use Rattle.xc_handle.specs.Held.{held};

use crate::counter::Counter;
use std::alloc::Global;
use std::marker::Model;
use std::mem::replace;
use xc_handle::{Handle, Opaque};

/// What C keeps of a counter: its pointer, or null.
#[repr(C)]
pub struct CounterHandle {
    at: *mut Opaque,
    pub ghost value: { Option Counter } by { coded_option the_row.coded },
}

impl Model for CounterHandle {
    ghost also_owns = { λ h. held the_row h.at h.value };
}

impl CounterHandle {
    // As C keeps it.
    fn of(handle: Handle<Counter>) -> CounterHandle
        ensures { result.value ≡ handle.value }
    {
        let Handle { at } = handle;
        CounterHandle {
            at: at as *mut Opaque,
        }
    }

    // As this library has it.
    fn into_handle(self) -> Handle<Counter>
        ensures { result.value ≡ self.value }
    {
        let CounterHandle { at } = self;
        Handle {
            at: at as *mut Counter,
        }
    }

    // Takes the counter out. The handle is closed then.
    pub(crate) fn take(&mut self, alloc: Global) -> Option<Box<Counter>>
        ensures value { MatchOption result (self.old.value ≡ None) (λ b. self.old.value ≡ Some b.value) }
        ensures closed { self.new.value ≡ None }
    {
        let closed = CounterHandle::of(Handle::empty());
        replace(self, closed).into_handle().into_box(alloc)
    }

    // Puts a counter in. One that is there already is dropped.
    pub(crate) fn put(&mut self, alloc: Global, counter: Box<Counter>)
        ensures { self.new.value ≡ Some counter.value }
    {
        let open = CounterHandle::of(Handle::of(counter));
        drop(replace(self, open).into_handle().into_box(alloc));
    }
}

// C may give it to another thread, as a counter may go there.
unsafe impl Send for CounterHandle {}
