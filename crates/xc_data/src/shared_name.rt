ghost use Rattle.std.specs.Prelude.{◌≡◌, IfOk, IsTrue, nat_eq, refl, Some};
ghost use Rattle.xc_data.specs.Spelling.{is_name};
ghost use Rattle.std.specs.Ordering.{nat_cmp};
ghost use Rattle.std.proofs.Common.{ap};
ghost use Rattle.std.specs.Hash as fed;
ghost use Rattle.std.specs.Cmp.{partial_equiv_from_equiv};
ghost use Rattle.std.specs.Cmp.Lexicographic.{pointwise, slice_cmp, bytes_decides, nat_list_eq_equiv};
ghost use Rattle.std.specs.Cmp.Lexicographic.{nat_list_cmp_total, texts_ties, texts_po};

use crate::lasting::Leaked;
use crate::{Name, NoMemory};
use std::alloc::Global;
use std::cmp::Ordering;
use std::fmt::{self, Debug, Formatter, Write};
use std::hash::{Hash, Hasher};
use std::marker::Model;

/// A file's name in a place of its own, which all who name it share. Contracts see it as the name.
///
/// The place is never given back: a script has so many names, and they last as long as the program. So another one for the
/// same name takes no memory, and what holds a name stays small.
#[derive(Drop)]
pub struct SharedName {
    name: Leaked<Name>,
}

impl Model for SharedName {
    ghost use Rattle.std.specs.Prelude.{List, ℕ};

    ghost Value = { List ℕ };

    ghost view = { λ a. a.name.value };
}

// One word, so that what holds a name stays small.
const _: () = prove!(size_of::<SharedName>() == 8);

impl SharedName {
    /// Puts a name into a place of its own. `NoMemory` if there is none for it.
    pub fn new(alloc: Global, name: Name) -> Result<Self, NoMemory>
        ensures { IfOk result (λ shared. shared ≡ name) }
    {
        let place = Box::new(alloc, name)?;
        Ok(SharedName {
            name: Leaked::of(Box::leak(place)),
        })
    }

    /// The same name. It takes no memory.
    pub fn again(&self) -> Self
        ensures { result ≡ self.now }
    {
        SharedName {
            name: self.name.again(),
        }
    }

    /// Its bytes, without a copy.
    pub fn as_slice(&self) -> &[u8]
        ensures value { result.now ≡ self.now }
        ensures name { IsTrue (is_name self.now) }
    {
        self.value().as_slice()
    }

    /// The name itself.
    pub fn value(&self) -> &Name
        ensures { result.now ≡ self.now }
    {
        self.name.get()
    }
}

impl Debug for SharedName {
    fn fmt<W: Write>(&self, f: &mut Formatter<W>) -> fmt::Result {
        f.debug_struct("SharedName")
            .field("name", self.value())
            .finish()
    }
}

impl PartialEq for SharedName {
    ghost eq = { pointwise nat_eq };

    ghost laws = { partial_equiv_from_equiv nat_list_eq_equiv };

    fn eq(&self, other: &Self) -> bool {
        *self.value() == *other.value()
    }
}

impl Eq for SharedName {
    ghost laws = { nat_list_eq_equiv };
}

impl Hash for SharedName {
    ghost hash_input = { λ a. fed.slice fed.u8 a };

    ghost respects_eq = { λ x y h. ap (fed.slice fed.u8) ((bytes_decides x y).0 h) };

    fn hash<H: Hasher>(&self, state: &mut H) {
        self.value().hash(state);
    }
}

impl PartialOrd for SharedName {
    ghost partial_cmp = { λ x y. Some (slice_cmp nat_cmp x y) };

    ghost laws = { texts_po };

    fn partial_cmp(&self, other: &Self) -> Option<Ordering> {
        Some(self.cmp(other))
    }
}

impl Ord for SharedName {
    ghost cmp = { slice_cmp nat_cmp };

    ghost total = { nat_list_cmp_total };

    ghost matches_partial_cmp = { λ x y. refl };

    ghost matches_eq = { texts_ties };

    fn cmp(&self, other: &Self) -> Ordering {
        self.value().cmp(other.value())
    }
}
