ghost use Rattle.std.specs.Bool.{Decides};
ghost use Rattle.std.specs.Option.{option_copied};
ghost use Rattle.std.specs.Prelude.{◌<◌, ◌^◌, ◌++◌, [], IfOk, MatchOption, length};
ghost use Rattle.xc_grounds.specs.Groundless.{AreTwo, ClashesOver, IsFirstGroundless, IsGroundedAt, IsNamed, blame, mention, scene};
ghost use Rattle.xc_grounds.specs.Numbered.{AreNumbered, part_begins};
ghost use Rattle.xc_grounds.specs.Places.{HasPlaces};
ghost use Rattle.xc_model.specs.Grounds.{AreGrounded, Ground, Part as PlainPart, Revocation, scene_of};

use crate::Part;
use crate::clashes::clashes_over;
use crate::places::Places;
use std::alloc::Global;
use xc_data::{Cause, NoMemory, Object};

// The place of each by its number. All are entered: right numbers are free.
fn places_of(alloc: Global, parts: &[Part]) -> Result<Places, NoMemory>
    requires numbered { AreNumbered (length parts.now) (part_begins parts.now) }
    requires few { length parts.now < 2 ^ 32 }
    ensures { IfOk result (λ places. HasPlaces (part_begins parts.now) places.by_number.items) }
{
    let mut places = Places::none(alloc, parts.len())?;
    for (place, part) in parts.iter().enumerate() {
        places.enter(part.number, place as u32);
    }
    Ok(places)
}

// Both had begun by then, neither had ended, and they are of two jobs.
fn are_two(part: &Part, place: usize, who: &Part, there: usize, at: u32) -> bool
    ensures { Decides result (AreTwo part.now place who.now there at) }
{
    let at_place = at as usize;
    part.began <= at
        && at_place <= place
        && who.began <= at
        && at_place <= there
        && who.job != part.job
}

// The other transaction that the one at this place names by its number: both had begun by then, neither had ended, and they are of two
// jobs.
fn named<'a>(
    places: &Places,
    parts: &'a [Part],
    place: usize,
    part: &Part,
    number: u32,
    at: u32,
) -> Option<&'a Part>
    requires { HasPlaces (part_begins parts.now) places.now.by_number.items }
    ensures { MatchOption (option_copied result) ((who : PlainPart) → IsNamed parts.now place part.now (mention number at) who → ⊥)
        (IsNamed parts.now place part.now (mention number at)) }
{
    let there = places.of(number as usize)? as usize;
    let who = &parts[there];
    if are_two(part, place, who, there, at) {
        return Some(who);
    }
    None
}

// It holds the object, and the call that this one was asked last clashes with that where it is known.
fn is_holder(known: bool, who: &Part, part: &Part, object: &Object) -> bool
    ensures { Decides result (ClashesOver known who.now.held part.now.wanted object.now) }
{
    clashes_over(
        known,
        who.held.as_slice(),
        &[],
        part.wanted.as_slice(),
        object,
    )
}

// The conflict of the one at this place names a holder of the object, with whom the call clashes that it was asked last, where it is
// known.
fn is_conflict(
    known: bool,
    places: &Places,
    parts: &[Part],
    place: usize,
    part: &Part,
    object: &Object,
    number: u32,
    at: u32,
) -> bool
    requires { HasPlaces (part_begins parts.now) places.now.by_number.items }
    ensures { Decides result (Ground (scene known parts.now) place part.now (blame object.now number at)) }
{
    match named(places, parts, place, part, number, at) {
        Some(who) => is_holder(known, who, part, object),
        None => false,
    }
}

// It has a smaller rank, and it holds or was asked last for the object that this one holds; what it was asked last may be unknown.
fn is_older(known: bool, who: &Part, part: &Part, object: &Object) -> bool
    ensures { Decides result ((who.now.rank < part.now.rank)
        × ClashesOver known part.now.held (who.now.held ++ who.now.wanted) object.now) }
{
    if who.rank >= part.rank {
        return false;
    }
    clashes_over(
        known,
        part.held.as_slice(),
        who.held.as_slice(),
        who.wanted.as_slice(),
        object,
    )
}

// The revocation of the one at this place names an older transaction, which holds or was asked last for the object that this one holds;
// what it was asked last may be unknown.
fn is_revocation(
    known: bool,
    places: &Places,
    parts: &[Part],
    place: usize,
    part: &Part,
    object: &Object,
    number: u32,
    at: u32,
) -> bool
    requires { HasPlaces (part_begins parts.now) places.now.by_number.items }
    ensures { Decides result (Revocation (scene known parts.now) place part.now (blame object.now number at)) }
{
    match named(places, parts, place, part, number, at) {
        Some(who) => is_older(known, who, part, object),
        None => false,
    }
}

// Why the one at this place was aborted is grounded.
fn is_grounded(known: bool, places: &Places, parts: &[Part], place: usize, part: &Part) -> bool
    requires { HasPlaces (part_begins parts.now) places.now.by_number.items }
    ensures { Decides result (IsGroundedAt known parts.now place part.now) }
{
    match &part.cause {
        Some(Cause::Conflict { object, holder, at }) => {
            is_conflict(known, places, parts, place, part, object, *holder, *at)
        }
        Some(Cause::Revoked { object, by, at }) => {
            is_revocation(known, places, parts, place, part, object, *by, *at)
        }
        Some(Cause::Asked | Cause::NoMemory | Cause::Stuck { .. }) | None => true,
    }
}

/// The place of the first of these whose conflict names no holder, or whose revocation names no older transaction, if there is one.
/// Where it isn't known which calls they were asked last, these need not clash with what is held.
pub fn first_groundless(alloc: Global, known: bool, parts: &[Part]) -> Result<Option<u32>, NoMemory>
    requires numbered { AreNumbered (length parts.now) (part_begins parts.now) }
    requires few { length parts.now < 2 ^ 32 }
    ensures { IfOk result (λ r. MatchOption r (AreGrounded (scene_of known parts.now [])) (IsFirstGroundless known parts.now)) }
{
    let places = places_of(alloc, parts)?;
    for (place, part) in parts.iter().enumerate() {
        if !is_grounded(known, &places, parts, place, part) {
            return Ok(Some(place as u32));
        }
    }
    Ok(None)
}
