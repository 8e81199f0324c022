ghost use Rattle.std.specs.Prelude.{◌≡◌};
ghost use Rattle.xc_data.specs.Remaining.{objects_of};

use crate::{Chunk, Items, Num, Object, SharedName};
use smallvec::SmallVec;
use std::alloc::Global;

/// How a call is compensated: what it did, and what was there before.
#[derive(Debug, Drop)]
pub enum Undo {
    /// An overwrite at `at`. It covers the first `n` of the bytes `after`; `before` is what stood
    /// under all of them.
    Overwrite {
        file: Num,
        at: u32,
        before: Chunk,
        after: Chunk,
        n: u32,
    },
    /// An append to a file that had `from` bytes. It covers the first `n` of the bytes `after`.
    Append {
        file: Num,
        from: u32,
        after: Chunk,
        n: u32,
    },
    /// A new file under a new name.
    Create {
        name: SharedName,
        num: Num,
    },
    /// A file that went from one name to another.
    Rename {
        from: SharedName,
        to: SharedName,
    },
    NewPipe(Num),
    NewPair(Num),
}

/// How a compensation ended.
#[derive(Clone, Copy, Debug)]
pub enum UndoEnd {
    /// Done, after so many faults.
    Undone { faults: u32 },
    /// Given up after so many faults, with so many bytes restored.
    Failed { done: u32, faults: u32 },
    /// Not tried: the newer record of this number, counted from 1, shares an object and stands.
    Blocked { by: u32 },
}

/// Records with their ends, in the order of the calls.
pub type RecordList = Items<(Undo, UndoEnd)>;

impl Undo {
    /// The objects whose state the record speaks of. It takes no memory.
    pub fn objects(&self, alloc: Global) -> SmallVec<Object, 2>
        ensures { result.items ≡ objects_of self.now }
    {
        let mut objects = SmallVec::new(alloc);
        match self {
            Undo::Overwrite { file, .. } | Undo::Append { file, .. } => {
                objects.push_reserved(Object::File(*file));
            }
            Undo::Create { name, num } => {
                objects.push_reserved(Object::Name(name.again()));
                objects.push_reserved(Object::File(*num));
            }
            Undo::Rename { from, to } => {
                objects.push_reserved(Object::Name(from.again()));
                objects.push_reserved(Object::Name(to.again()));
            }
            Undo::NewPipe(num) => objects.push_reserved(Object::Pipe(*num)),
            Undo::NewPair(num) => objects.push_reserved(Object::Pair(*num)),
        }
        objects
    }
}
