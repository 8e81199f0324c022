ghost use Rattle.std.specs.Prelude.{◌≡◌, ◌↔◌, [], IsTrue, ◌≤◌, ◌<◌, ◌^◌, List, ℕ, length, nat_eq, slice_range, IfOk};
ghost use Rattle.std.specs.Cmp.{partial_equiv_from_equiv};
ghost use Rattle.std.specs.Cmp.Lexicographic.{pointwise, nat_list_eq_equiv};

use crate::NoMemory;
use bytes::Bytes;
use std::alloc::{AllocError, Global};
use std::marker::Model;
use std::sync::Arc;

/// Bytes that may have several owners. Another owner shares them: it copies none, and takes no memory but for a count.
#[derive(Debug, Drop)]
pub struct Chunk {
    // One pointer, so that what carries bytes stays small.
    bytes: Arc<Bytes>,
}

impl Model for Chunk {
    ghost use Rattle.std.specs.Prelude.{List, ℕ};

    ghost Value = { List ℕ };

    ghost view = { λ a. a.bytes.value };
}

impl Chunk {
    /// A chunk of its own, with these bytes copied.
    pub fn new(alloc: Global, bytes: &[u8]) -> Result<Chunk, NoMemory>
        ensures { IfOk result (λ chunk. chunk ≡ bytes.now) }
    {
        let bytes = Bytes::copy_from_slice(alloc, bytes)?;
        Ok(Chunk {
            bytes: Arc::new(alloc, bytes)?,
        })
    }

    /// The vector's bytes. It copies none.
    pub fn from_vec(bytes: Vec<u8>) -> Result<Chunk, NoMemory>
        ensures { IfOk result (λ chunk. chunk ≡ bytes.items) }
    {
        let alloc = *bytes.allocator();
        let bytes = Bytes::from_vec(bytes)?;
        Ok(Chunk {
            bytes: Arc::new(alloc, bytes)?,
        })
    }

    /// A front of the bytes from a place on. It copies none.
    pub fn part(&self, alloc: Global, from: usize, to: usize) -> Result<Chunk, NoMemory>
        requires order { from ≤ to }
        requires within { to ≤ length self.now }
        ensures { IfOk result (λ chunk. chunk ≡ slice_range self.now from to) }
    {
        let part = self.bytes.slice(from..to)?;
        Ok(Chunk {
            bytes: Arc::new(alloc, part)?,
        })
    }

    /// The number of bytes.
    pub fn len(&self) -> usize
        ensures value { result ≡ length self.now }
        ensures bound { result < 2 ^ 63 }
    {
        self.bytes.len()
    }

    /// Whether there is no byte.
    pub fn is_empty(&self) -> bool
        ensures { IsTrue result ↔ (self.now ≡ []) }
    {
        self.bytes.is_empty()
    }

    /// The bytes, without a copy.
    pub fn as_slice(&self) -> &[u8]
        ensures { result.now ≡ self.now }
    {
        self.bytes.as_slice()
    }

    /// Another owner of the same bytes.
    pub fn share(&self) -> Result<Chunk, NoMemory>
        ensures { IfOk result (λ chunk. chunk ≡ self.now) }
    {
        Ok(self.clone()?)
    }
}

impl Clone for Chunk {
    ghost is_clone = { λ chunk copy. copy ≡ chunk };

    fn clone(&self) -> Result<Self, AllocError> {
        Ok(Chunk {
            bytes: Arc::try_clone(&self.bytes)?,
        })
    }
}

impl PartialEq for Chunk {
    ghost eq = { pointwise nat_eq };

    ghost laws = { partial_equiv_from_equiv nat_list_eq_equiv };

    fn eq(&self, other: &Self) -> bool {
        self.as_slice() == other.as_slice()
    }
}
