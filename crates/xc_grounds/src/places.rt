ghost use Rattle.std.specs.Bool.{Decides};
ghost use Rattle.std.specs.Prelude.{◌≡◌, ◌+◌, ◌<◌, ◌^◌, [], IfOk, None, Some, get_or, if◌then◌else◌, length, slice_set};
ghost use Rattle.xc_grounds.specs.Places.{HasPlaces, IsUnusedNumber};

use std::alloc::Global;
use xc_data::NoMemory;

/// The places of transactions by their numbers.
#[derive(Drop)]
pub(crate) struct Places {
    pub(crate) by_number: Vec<Option<u32>>,
}

impl Places {
    /// No number has a place yet; there may be `count` of them.
    pub(crate) fn none(alloc: Global, count: usize) -> Result<Places, NoMemory>
        requires { count < 2 ^ 32 }
        ensures has { IfOk result (λ places. HasPlaces [] places.by_number.items) }
        ensures count { IfOk result (λ places. length places.by_number.items ≡ count + 1) }
    {
        let by_number = vec![in alloc; None; count + 1]?;
        Ok(Places { by_number })
    }

    /// The place of the transaction of a number.
    pub(crate) fn of(&self, number: usize) -> Option<u32>
        ensures { result ≡ get_or self.now.by_number.items number None }
    {
        *self.by_number.get(number)?
    }

    /// Gives a number its place, where it is free, and says whether it was.
    pub(crate) fn enter(&mut self, number: u32, place: u32) -> bool
        ensures free { Decides result (IsUnusedNumber self.old.by_number.items number) }
        ensures table { self.new.by_number.items
            ≡ (if result then slice_set self.old.by_number.items number (Some place) else self.old.by_number.items) }
    {
        let at = number as usize;
        if number == 0 || at >= self.by_number.len() || self.by_number[at].is_some() {
            return false;
        }
        self.by_number[at] = Some(place);
        true
    }
}
