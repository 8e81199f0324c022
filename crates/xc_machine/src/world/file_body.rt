ghost use Rattle.std.specs.Prelude.{◌≡◌, ◌≤◌, ◌++◌, [], length, slice_range, unwrap_or, IfOk, OnOk, OnErr};

use super::shared::joined;
use std::alloc::{AllocError, Global};
use std::marker::Model;
use xc_data::{Chunk, NoMemory};

/// How many bytes of a file may stand apart.
const MOST_APART: usize = 512;

/// A file's bytes. Those that came last stand apart from the others, so that few are copied where a file grows.
#[derive(Drop)]
pub(crate) struct FileBody {
    front: Option<Chunk>,
    tail: Vec<u8>,
}

impl Model for FileBody {
    ghost use Rattle.std.specs.Prelude.{ℕ, ◌++◌, [], List, unwrap_or};

    ghost Value = { List ℕ };

    ghost view = { λ a. unwrap_or a.front [] ++ a.tail.items };
}

// Another owner of the same bytes, where there are some.
fn shared_front(front: &Option<Chunk>) -> Result<Option<Chunk>, AllocError>
    ensures { IfOk result (λ again. again ≡ front.now) }
{
    match front {
        Some(bytes) => Ok(Some(bytes.clone()?)),
        None => Ok(None),
    }
}

impl Clone for FileBody {
    ghost is_clone = { λ file copy. copy ≡ file };

    fn clone(&self) -> Result<Self, AllocError> {
        Ok(FileBody {
            front: shared_front(&self.front)?,
            tail: Vec::from_slice(*self.tail.allocator(), self.tail.as_slice())?,
        })
    }
}

// The bytes of a front.
fn bytes_in(front: &Option<Chunk>) -> &[u8]
    ensures { result.now ≡ unwrap_or front.now [] }
{
    match front {
        Some(bytes) => bytes.as_slice(),
        None => &[],
    }
}

// The bytes of three pieces, one after another.
fn joined_bytes(alloc: Global, front: &[u8], tail: &[u8], bytes: &[u8]) -> Result<Chunk, NoMemory>
    ensures { IfOk result (λ next. next ≡ (front.now ++ tail.now) ++ bytes.now) }
{
    let room = front.len().saturating_add(tail.len());
    let mut next = Vec::with_capacity(alloc, room.saturating_add(bytes.len()))?;
    next.extend_from_slice(front)?;
    next.extend_from_slice(tail)?;
    next.extend_from_slice(bytes)?;
    Chunk::from_vec(next)
}

impl FileBody {
    /// No bytes. It takes no memory.
    pub(super) fn empty(alloc: Global) -> FileBody
        ensures { result ≡ [] }
    {
        FileBody {
            front: None,
            tail: Vec::new(alloc),
        }
    }

    /// These bytes. It takes no memory.
    pub(super) fn of(alloc: Global, bytes: Chunk) -> FileBody
        ensures { result ≡ bytes }
    {
        FileBody {
            front: Some(bytes),
            tail: Vec::new(alloc),
        }
    }

    /// The number of bytes.
    pub(super) fn len(&self) -> usize
        ensures { result ≡ length self.now }
    {
        bytes_in(&self.front).len() + self.tail.len()
    }

    /// The bytes. It copies none where none stand apart.
    pub(super) fn whole(&self, alloc: Global) -> Result<Chunk, NoMemory>
        ensures { IfOk result (λ bytes. bytes ≡ self.now) }
    {
        match &self.front {
            Some(front) if self.tail.is_empty() => front.share(),
            _ => joined(alloc, bytes_in(&self.front), self.tail.as_slice()),
        }
    }

    /// A front of the bytes from a place on.
    pub(super) fn part(&self, alloc: Global, from: usize, to: usize) -> Result<Chunk, NoMemory>
        requires order { from ≤ to }
        requires within { to ≤ length self.now }
        ensures { IfOk result (λ bytes. bytes ≡ slice_range self.now from to) }
    {
        match &self.front {
            Some(front) if to <= front.len() => front.part(alloc, from, to),
            _ => self.whole(alloc)?.part(alloc, from, to),
        }
    }

    // All bytes and others after them, and none apart.
    fn settle_with(&mut self, bytes: &[u8]) -> Result<(), NoMemory>
        ensures ok { OnOk result (self.new ≡ self.old ++ bytes.now) }
        ensures err { OnErr result (self.new ≡ self.old) }
    {
        let alloc = *self.tail.allocator();
        let next = joined_bytes(alloc, bytes_in(&self.front), self.tail.as_slice(), bytes)?;
        self.front = Some(next);
        self.tail.clear();
        Ok(())
    }

    /// With others after them, which stand apart while those are few.
    pub(super) fn append(&mut self, bytes: &[u8]) -> Result<(), NoMemory>
        ensures ok { OnOk result (self.new ≡ self.old ++ bytes.now) }
        ensures err { OnErr result (self.new ≡ self.old) }
    {
        if self.tail.len().saturating_add(bytes.len()) > MOST_APART {
            return self.settle_with(bytes);
        }
        self.tail.extend_from_slice(bytes)?;
        Ok(())
    }
}
