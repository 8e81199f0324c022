ghost use Rattle.std.specs.Prelude.{◌≡◌, IfOk};

use crate::NoMemory;
use std::alloc::{AllocError, Global};
use std::marker::Model;

/// A value in a place of its own in memory, so that what names it stays small. Contracts see it as
/// the value.
///
/// An identifier has room for 32 bytes: unboxed, it would make every call as large as the largest.
#[derive(Debug, Drop)]
pub struct Boxed<T> {
    value: Box<T>,
}

impl<T> Model for Boxed<T> {
    ghost Value = { T };

    ghost view = { λ a. a.value.value };
}

impl<T: Drop> Boxed<T> {
    /// Puts a value on the heap. `NoMemory` if there is none for it; the value is dropped then.
    pub fn new(alloc: Global, value: T) -> Result<Self, NoMemory>
        ensures { IfOk result (λ boxed. boxed ≡ value) }
    {
        Ok(Boxed {
            value: Box::new(alloc, value)?,
        })
    }
}

impl<T> Boxed<T> {
    /// The value inside.
    pub fn value(&self) -> &T
        ensures { result.now ≡ self.now }
    {
        &self.value
    }
}

impl<T: PartialEq> PartialEq for Boxed<T> {
    ghost eq = { T.eq };

    ghost laws = { T.laws };

    fn eq(&self, other: &Self) -> bool {
        *self.value == *other.value
    }
}

impl<T: Copy + Drop> Boxed<T> {
    /// Another place with the same value.
    pub fn copied(&self, alloc: Global) -> Result<Self, NoMemory>
        ensures { IfOk result (λ copy. copy ≡ self.now) }
    {
        Boxed::new(alloc, *self.value())
    }
}

impl<T: Clone + Drop> Clone for Boxed<T> {
    ghost is_clone = { T.is_clone };

    fn clone(&self) -> Result<Self, AllocError> {
        Ok(Boxed {
            value: self.value.clone()?,
        })
    }
}
