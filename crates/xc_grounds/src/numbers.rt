ghost use Rattle.std.specs.Bool.{Decides};
ghost use Rattle.std.specs.Prelude.{◌<◌, ◌^◌, [], IfOk, MatchOption, length, take};
ghost use Rattle.xc_grounds.specs.Numbered.{AreInOrder, AreNumbered, IsFirstMisnumbered};
ghost use Rattle.xc_grounds.specs.Places.{AreEntered, HasPlaces, IsBegin, IsFirstDisordered, IsNoNumber};

use crate::places::Places;
use std::alloc::Global;
use xc_data::NoMemory;

// Enters these in their order, as long as the next one's number is free, and says how many.
fn enter_all(places: &mut Places, begins: &[(u32, u32)]) -> usize
    requires none { HasPlaces [] places.old.by_number.items }
    requires few { length begins.now < 2 ^ 32 }
    ensures { AreEntered begins.now (length places.old.by_number.items) result places.new.by_number.items }
{
    for (place, begin) in begins.iter().enumerate() {
        if !places.enter(begin.0, place as u32) {
            return place;
        }
    }
    begins.len()
}

impl Places {
    // When the transaction of a number began, if it is one of the first `below`.
    fn began(&self, begins: &[(u32, u32)], number: usize, below: u32) -> Option<u32>
        requires { HasPlaces begins.now self.now.by_number.items }
        ensures { MatchOption result (IsNoNumber (take below begins.now) number) (IsBegin (take below begins.now) number) }
    {
        let place = self.of(number)?;
        if place < below {
            return Some(begins[place as usize].1);
        }
        None
    }

    // Of the first `below` none with a greater number began earlier.
    fn are_in_order(&self, begins: &[(u32, u32)], below: u32) -> bool
        requires { HasPlaces begins.now self.now.by_number.items }
        ensures { Decides result (AreInOrder (take below begins.now)) }
    {
        let mut latest = 0;
        for number in 0..self.by_number.len() {
            if let Some(began) = self.began(begins, number, below) {
                if began < latest {
                    return false;
                }
                latest = began;
            }
        }
        true
    }

    // The first place at which these are no longer in order, if there is one. It halves: a list in order has each front in order.
    fn first_disordered(&self, begins: &[(u32, u32)]) -> Option<u32>
        requires has { HasPlaces begins.now self.now.by_number.items }
        requires few { length begins.now < 2 ^ 32 }
        ensures { MatchOption result (AreInOrder begins.now) (IsFirstDisordered begins.now) }
    {
        let mut low = 0;
        let mut high = begins.len() as u32;
        if self.are_in_order(begins, high) {
            return None;
        }
        while low + 1 < high {
            let middle = low + (high - low) / 2;
            if self.are_in_order(begins, middle) {
                low = middle;
            } else {
                high = middle;
            }
        }
        Some(low)
    }
}

/// The first place at which the numbers go wrong, if they do. Each transaction has its number and the length that the journal had at its
/// begin.
pub fn first_misnumbered(alloc: Global, begins: &[(u32, u32)]) -> Result<Option<u32>, NoMemory>
    requires { length begins.now < 2 ^ 32 }
    ensures { IfOk result (λ r.
        MatchOption r (AreNumbered (length begins.now) begins.now) (IsFirstMisnumbered (length begins.now) begins.now)) }
{
    let mut places = Places::none(alloc, begins.len())?;
    let entered = enter_all(&mut places, begins);
    if let Some(place) = places.first_disordered(&begins[..entered]) {
        return Ok(Some(place));
    }
    if entered < begins.len() {
        return Ok(Some(entered as u32));
    }
    Ok(None)
}
