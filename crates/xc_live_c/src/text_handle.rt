ghost use Rattle.std.specs.Prelude.{◌≡◌};
ghost use Rattle.std.specs.Option.{MatchOption};
ghost use Rattle.std.specs.declared.option.Option.{Option};
ghost use Rattle.std.specs.declared.option.Option.TheVariants.{None, Some};
ghost use Rattle.std.specs.Coded.{coded_option};
ghost use Rattle.xc_live_c.specs.declared.run_text.RunText.{RunText};
ghost use Rattle.xc_live_c.specs.contracts.run_text.RunText.{the_row};
ghost use Rattle.xc_handle.specs.Held.{held};

use crate::run_text::RunText;
use std::alloc::Global;
use std::marker::Model;
use std::mem::replace;
use xc_handle::{Handle, Opaque};

/// What C keeps of a text: its pointer, or null.
#[repr(C)]
pub struct TextHandle {
    at: *mut Opaque,
    pub ghost value: { Option RunText } by { coded_option the_row.coded },
}

impl Model for TextHandle {
    ghost also_owns = { λ h. held the_row h.at h.value };
}

impl TextHandle {
    // As C keeps it.
    fn of(handle: Handle<RunText>) -> TextHandle
        ensures { result.value ≡ handle.value }
    {
        let Handle { at } = handle;
        TextHandle {
            at: at as *mut Opaque,
        }
    }

    // As this library has it.
    fn into_handle(self) -> Handle<RunText>
        ensures { result.value ≡ self.value }
    {
        let TextHandle { at } = self;
        Handle {
            at: at as *mut RunText,
        }
    }

    // Takes the text out. The handle has none then.
    pub(crate) fn take(&mut self, alloc: Global) -> Option<Box<RunText>>
        ensures value { MatchOption result (self.old.value ≡ None) (λ b. self.old.value ≡ Some b.value) }
        ensures closed { self.new.value ≡ None }
    {
        let closed = TextHandle::of(Handle::empty());
        replace(self, closed).into_handle().into_box(alloc)
    }

    // Puts a text in. One that is there already is dropped.
    pub(crate) fn put(&mut self, alloc: Global, text: Box<RunText>)
        ensures { self.new.value ≡ Some text.value }
    {
        let open = TextHandle::of(Handle::of(text));
        drop(replace(self, open).into_handle().into_box(alloc));
    }
}

// C may give it to another thread, as its text may go there.
unsafe impl Send for TextHandle {}
