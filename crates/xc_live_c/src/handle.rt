ghost use Rattle.std.specs.Prelude.{◌≡◌};
ghost use Rattle.std.specs.Option.{MatchOption};
ghost use Rattle.std.specs.declared.option.Option.{Option};
ghost use Rattle.std.specs.declared.option.Option.TheVariants.{None, Some};
ghost use Rattle.std.specs.Coded.{coded_option};
ghost use Rattle.xc_live_c.specs.declared.clients.Clients.{Clients};
ghost use Rattle.xc_live_c.specs.contracts.clients.Clients.{the_row};
ghost use Rattle.xc_handle.specs.Held.{held};

use crate::clients::Clients;
use std::alloc::Global;
use std::marker::Model;
use std::mem::replace;
use xc_handle::{Handle, Opaque};

/// What C keeps of a desk: its pointer, or null.
#[repr(C)]
pub struct DeskHandle {
    at: *mut Opaque,
    pub ghost value: { Option Clients } by { coded_option the_row.coded },
}

impl Model for DeskHandle {
    ghost also_owns = { λ h. held the_row h.at h.value };
}

impl DeskHandle {
    // As C keeps it.
    fn of(handle: Handle<Clients>) -> DeskHandle
        ensures { result.value ≡ handle.value }
    {
        let Handle { at } = handle;
        DeskHandle {
            at: at as *mut Opaque,
        }
    }

    // As this library has it.
    fn into_handle(self) -> Handle<Clients>
        ensures { result.value ≡ self.value }
    {
        let DeskHandle { at } = self;
        Handle {
            at: at as *mut Clients,
        }
    }

    // Takes the clients out. The handle is closed then.
    pub(crate) fn take(&mut self, alloc: Global) -> Option<Box<Clients>>
        ensures value { MatchOption result (self.old.value ≡ None) (λ b. self.old.value ≡ Some b.value) }
        ensures closed { self.new.value ≡ None }
    {
        let closed = DeskHandle::of(Handle::empty());
        replace(self, closed).into_handle().into_box(alloc)
    }

    // Puts clients in. Any that are there already are dropped.
    pub(crate) fn put(&mut self, alloc: Global, clients: Box<Clients>)
        ensures { self.new.value ≡ Some clients.value }
    {
        let open = DeskHandle::of(Handle::of(clients));
        drop(replace(self, open).into_handle().into_box(alloc));
    }
}

// C may give it to another thread, as its clients may go there.
unsafe impl Send for DeskHandle {}
