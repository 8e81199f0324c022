ghost use Rattle.std.specs.Bool.{Decides};
ghost use Rattle.std.specs.List.{list_any, position};
ghost use Rattle.std.specs.Prelude.{◌≡◌, ◌+◌, ◌<◌, ◌^◌, length};
ghost use Rattle.xc_data.specs.Claims.{is_object};
ghost use Rattle.xc_world.specs.Ends.{AreLegal, IsLegalEnd, RestoredFits, blocker, stands_in_way, is_undone, share_object};

use std::alloc::Global;
use xc_data::{Object, Undo, UndoEnd};

// An object is one of these.
fn is_among(object: &Object, objects: &[Object]) -> bool
    ensures { result ≡ list_any (is_object object.now) objects.now }
{
    objects.iter().any(|other| object == other)
}

// Two records are of the same object.
fn share_object(alloc: Global, a: &Undo, b: &Undo) -> bool
    ensures { result ≡ share_object a.now b.now }
{
    let objects = a.objects(alloc);
    let others = b.objects(alloc);
    objects
        .as_slice()
        .iter()
        .any(|object| is_among(object, others.as_slice()))
}

/// Nothing is left of a record that ended so.
pub(crate) fn is_undone(end: UndoEnd) -> bool
    ensures { result ≡ is_undone end }
{
    matches!(end, UndoEnd::Undone { .. })
}

// A newer record stands in an older one's way.
fn blocks(alloc: Global, older: &Undo, newer: &(Undo, UndoEnd)) -> bool
    ensures { result ≡ stands_in_way older.now newer.now }
{
    !is_undone(newer.1) && share_object(alloc, older, &newer.0)
}

// How many records lie between an older one and the first that stands in its way.
fn way(alloc: Global, older: &Undo, newer: &[(Undo, UndoEnd)]) -> Option<usize>
    ensures { result ≡ position (stands_in_way older.now) newer.now }
{
    newer.iter().position(|record| blocks(alloc, older, record))
}

// The smallest number of a newer record in the way, where the first of them has this number.
fn blocker(alloc: Global, from: u64, older: &Undo, newer: &[(Undo, UndoEnd)]) -> Option<u64>
    requires { from + length newer.now < 2 ^ 64 }
    ensures { result ≡ blocker from older.now newer.now }
{
    match way(alloc, older, newer) {
        Some(between) => Some(from + between as u64),
        None => None,
    }
}

// A failed compensation restored fewer bytes than are covered, and none but of an overwrite.
fn restored_fits(undo: &Undo, done: u32) -> bool
    ensures { Decides result (RestoredFits undo.now done) }
{
    match undo {
        Undo::Overwrite { n, .. } => done < *n,
        Undo::Append { .. } | Undo::Create { .. } | Undo::Rename { .. } => done == 0,
        Undo::NewPipe(_) | Undo::NewPair(_) => done == 0,
    }
}

// An end is one that a compensation may have, with what stands in its way.
fn is_legal_end(tries: u32, undo: &Undo, end: &UndoEnd, way: Option<u64>) -> bool
    ensures { Decides result (IsLegalEnd tries undo.now end.now way) }
{
    match end {
        UndoEnd::Blocked { by } => way == Some(*by as u64),
        UndoEnd::Undone { faults } => way.is_none() && *faults < tries,
        UndoEnd::Failed { done, faults } => {
            way.is_none() && *faults == tries && restored_fits(undo, *done)
        }
    }
}

/// The ends of these records are ones that compensations may have, the first of them having the number 1.
pub(crate) fn are_legal(alloc: Global, tries: u32, mut records: &[(Undo, UndoEnd)]) -> bool
    ensures { Decides result (AreLegal tries 1 records.entry.now) }
{
    let mut from = 1;
    while let [record, newer @ ..] = records {
        let way = blocker(alloc, from + 1, &record.0, newer);
        if !is_legal_end(tries, &record.0, &record.1, way) {
            return false;
        }
        from += 1;
        records = newer;
    }
    true
}
