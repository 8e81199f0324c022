ghost use Rattle.std.specs.Prelude.{◌≡◌};
ghost use Rattle.xc_locks.specs.Keys.{kind_of};

use xc_data::{Num, Object, SharedName};

/// An object that isn't a word. Contracts see them in an order: by kind, and then by what they name.
#[derive(Drop, PartialEq, Eq, PartialOrd, Ord, Hash)]
pub enum Other {
    Name(SharedName),
    File(Num),
    Pipe(Num),
    Pair(Num),
    Jobs,
}

/// An object as the table takes it: a word or another.
#[derive(Drop)]
pub enum LockKey {
    Word(u32),
    Other(Other),
}

impl LockKey {
    /// That of an object.
    pub fn of(object: &Object) -> LockKey
        ensures { result ≡ kind_of object.now }
    {
        match object {
            Object::Word(at) => LockKey::Word(*at),
            Object::Name(name) => LockKey::Other(Other::Name(name.again())),
            Object::File(num) => LockKey::Other(Other::File(*num)),
            Object::Pipe(num) => LockKey::Other(Other::Pipe(*num)),
            Object::Pair(num) => LockKey::Other(Other::Pair(*num)),
            Object::Jobs => LockKey::Other(Other::Jobs),
        }
    }
}
