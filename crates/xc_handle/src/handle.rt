ghost use Rattle.std.specs.Prelude.{◌≡◌};
ghost use Rattle.std.specs.Option.{MatchOption};
ghost use Rattle.std.specs.declared.option.Option.{Option};
ghost use Rattle.std.specs.declared.option.Option.TheVariants.{None, Some};
ghost use Rattle.std.specs.Coded.{coded_option};
ghost use Rattle.xc_handle.specs.Held.{held};

use crate::loose::Loose;
use std::alloc::Global;
use std::marker::Model;
use std::mem::replace;
use std::ptr::null_mut;

/// What C sees behind a handle's pointer. It never looks there.
#[repr(C)]
pub struct Opaque {
    byte: u8,
}

/// A value on the heap, or none, as one pointer: null where there is none. Who lets a handle go leaks its value, so it
/// isn't `Drop`.
pub struct Handle<T> {
    pub at: *mut T,
    pub ghost value: { Option T } by { coded_option T.code },
}

impl<T> Model for Handle<T> {
    ghost also_owns = { λ h. held T.row h.at h.value };
}

impl<T> Handle<T> {
    /// It holds no value.
    pub fn empty() -> Handle<T>
        ensures { result.value ≡ None }
    {
        Handle { at: null_mut() }
    }

    // The handle of a box that was taken apart.
    fn of_loose(loose: Loose<T, Global>) -> Handle<T>
        ensures { result.value ≡ Some loose.value }
    {
        let Loose { at, alloc: _ } = loose;
        Handle { at }
    }

    // What a handle holds, by its pointer.
    fn into_loose(self, alloc: Global) -> Option<Loose<T, Global>>
        ensures { MatchOption result (self.value ≡ None) (λ l. self.value ≡ Some l.value) }
    {
        let Handle { at } = self;
        if at.is_null() {
            None
        } else {
            Some(Loose { at, alloc })
        }
    }
}

impl<T: Drop> Handle<T> {
    /// It holds what the box held.
    pub fn of(value: Box<T>) -> Handle<T>
        ensures { result.value ≡ Some value.value }
    {
        Handle::of_loose(Loose::of(value))
    }

    /// What it holds, as a box again.
    pub fn into_box(self, alloc: Global) -> Option<Box<T>>
        ensures { MatchOption result (self.value ≡ None) (λ b. self.value ≡ Some b.value) }
    {
        match self.into_loose(alloc) {
            Some(loose) => Some(loose.into_box()),
            None => None,
        }
    }

    /// Takes the value out. The handle holds none then.
    pub fn take(&mut self, alloc: Global) -> Option<Box<T>>
        ensures value { MatchOption result (self.old.value ≡ None) (λ b. self.old.value ≡ Some b.value) }
        ensures empty { self.new.value ≡ None }
    {
        replace(self, Handle::empty()).into_box(alloc)
    }

    /// Puts a value in. One that is there already is dropped.
    pub fn put(&mut self, alloc: Global, value: Box<T>)
        ensures { self.new.value ≡ Some value.value }
    {
        drop(replace(self, Handle::of(value)).into_box(alloc));
    }
}

// It may go to another thread if its value may.
unsafe impl<T: Send> Send for Handle<T> {}
