ghost use Rattle.std.specs.Prelude.{◌≡◌, []};
ghost use denote.Struct.Lending.{lent_at};

use std::marker::{Model, Send, Sync};

/// A pointer to a value whose place is never given back. Another one for the same value takes no memory.
///
/// It is a `&'static T` whose type names no lifetime: what it owns is what the `&'static T` holds, lent for the lifetime of no
/// name, `[]`, which never ends.
#[derive(Drop)]
pub struct Leaked<T> {
    at: *const T,
    pub ghost value: { T },
}

impl<T> Model for Leaked<T> {
    ghost also_owns = { λ k. lent_at T.row k.at k.value [] };

    ghost also_shares = { λ k _ κ. lent_at T.row k.at k.value [] };
}

unsafe impl<T: Sync> Send for Leaked<T> {}

unsafe impl<T: Sync> Sync for Leaked<T> {}

impl<T: 'static> Leaked<T> {
    /// Points to a value that stays for as long as the program runs.
    pub fn of(value: &'static T) -> Self
        ensures { result.value ≡ value.now }
    {
        Leaked {
            at: value as *const T,
        }
    }

    /// The value.
    pub fn get(&self) -> &'static T
        ensures { result.now ≡ self.now.value }
    {
        unsafe { &*self.at }
    }

    /// Another pointer to the value.
    pub fn again(&self) -> Self
        ensures { result.value ≡ self.now.value }
    {
        Leaked::of(self.get())
    }
}
