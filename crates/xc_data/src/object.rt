ghost use Rattle.std.specs.Prelude.{◌≡◌};

use crate::SharedName;

/// The number of a file, pipe or pair: the transaction that made it, 0 for the prologue, and its
/// place among what that one made, from 0.
#[derive(Clone, Copy, Debug, PartialEq, Eq, PartialOrd, Ord, Hash)]
pub struct Num {
    pub tx: u32,
    pub k: u16,
}

/// What a transaction touches and holds. A name is an object of its own, also where it is absent.
#[derive(Debug, Default, Drop, PartialEq, Eq)]
pub enum Object {
    Word(u32),
    Name(SharedName),
    File(Num),
    Pipe(Num),
    Pair(Num),
    /// The list of started jobs.
    #[default]
    Jobs,
}

impl Object {
    /// The same object. It takes no memory.
    pub fn again(&self) -> Self
        ensures { result ≡ self.now }
    {
        match self {
            Object::Word(at) => Object::Word(*at),
            Object::Name(name) => Object::Name(name.again()),
            Object::File(num) => Object::File(*num),
            Object::Pipe(num) => Object::Pipe(*num),
            Object::Pair(num) => Object::Pair(*num),
            Object::Jobs => Object::Jobs,
        }
    }
}
