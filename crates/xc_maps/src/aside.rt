ghost use Rattle.std.specs.Prelude.{◌≡◌, ◌<◌, ◌≤◌, ◌+◌, ◌++◌, ℕ, None, Some, IfSome, IfNone, OnSome, IsTrue};
ghost use Rattle.std.specs.Prelude.{cond, length, slice_get, vec_capacity, false};
ghost use Rattle.std.specs.List.{remove};
ghost use Rattle.std.specs.BTreeMap.{is_at};
ghost use Rattle.std.specs.Map.{lookup};
ghost use Rattle.xc_maps.specs.Keys.{name_cmp};
ghost use Rattle.xc_maps.specs.Moved.{AreNew};

use std::collections::BTreeMap;
use xc_data::Name;

// Where the entry of a name stands.
pub(crate) fn place<V>(entries: &[(Name, V)], name: Name) -> Option<usize>
    ensures found { IfSome result (λ at. (x : V) × (slice_get entries.now at ≡ Some (name, x))) }
    ensures none { IfNone result (lookup (is_at (name_cmp name)) entries.now ≡ None) }
{
    for (at, entry) in entries.iter().enumerate() {
        if name.cmp(&entry.0).is_eq() {
            return Some(at);
        }
    }
    None
}

// Takes the entry of a name out.
pub(crate) fn take_out<V>(entries: &mut Vec<(Name, V)>, name: Name) -> Option<V>
    ensures some { IfSome result (λ x.
        (at : ℕ) × (slice_get entries.old.items at ≡ Some (name, x)) × (entries.new.items ≡ remove entries.old.items at)) }
    ensures none { IfNone result (lookup (is_at (name_cmp name)) entries.old.items ≡ None) }
    ensures unchanged { IfNone result (entries.new.items ≡ entries.old.items) }
    ensures capacity { vec_capacity entries.new ≡ vec_capacity entries.old }
    ensures shorter { OnSome result (length entries.new.items < length entries.old.items) }
{
    let at = place(entries.as_slice(), name)?;
    Some(entries.remove(at).1)
}

// The same, wherever it is.
pub(crate) fn take<V>(
    moved: &mut Vec<(Name, V)>,
    entries: &mut BTreeMap<Name, V>,
    name: Name,
) -> Option<V>
    requires { AreNew name_cmp moved.old.items entries.old.entries }
    ensures value { result ≡ lookup (is_at (name_cmp name)) (moved.old.items ++ entries.old.entries) }
    ensures taken { (q : _) → lookup (is_at (name_cmp q)) (moved.new.items ++ entries.new.entries)
        ≡ cond (is_at (name_cmp name) q) None (lookup (is_at (name_cmp q)) (moved.old.items ++ entries.old.entries)) }
    ensures fresh { AreNew name_cmp moved.new.items entries.new.entries }
    ensures capacity { vec_capacity moved.new ≡ vec_capacity moved.old }
    ensures room { OnSome result
        (length entries.new.entries + length moved.new.items < length entries.old.entries + length moved.old.items) }
    ensures bound { length entries.new.entries + length moved.new.items ≤ length entries.old.entries + length moved.old.items }
{
    match take_out(moved, name) {
        Some(value) => Some(value),
        None => entries.remove(&name),
    }
}

// Makes room for one entry more, if the name is new. Whether there is room.
// No clause of the tree says that an insertion after a removal finds room, so a renamed entry waits outside.
pub(crate) fn make_room<V>(
    moved: &mut Vec<(Name, V)>,
    entries: &BTreeMap<Name, V>,
    name: Name,
) -> bool
    ensures items { moved.new.items ≡ moved.old.items }
    ensures capacity { vec_capacity moved.old ≤ vec_capacity moved.new }
    ensures room { IsTrue result → lookup (is_at (name_cmp name)) entries.now.entries ≡ None
        → length entries.now.entries + length moved.new.items < vec_capacity moved.new }
    ensures none { result ≡ false → lookup (is_at (name_cmp name)) entries.now.entries ≡ None }
{
    if entries.contains_key(&name) {
        return true;
    }
    moved.reserve(entries.len() + 1).is_ok()
}

// Puts the last of the moved entries into the tree. Whether there is one, and memory.
fn put_one_away<V: Drop>(moved: &mut Vec<(Name, V)>, entries: &mut BTreeMap<Name, V>) -> bool
    requires { AreNew name_cmp moved.old.items entries.old.entries }
    ensures same { (q : _) → lookup (is_at (name_cmp q)) (moved.new.items ++ entries.new.entries)
        ≡ lookup (is_at (name_cmp q)) (moved.old.items ++ entries.old.entries) }
    ensures fresh { AreNew name_cmp moved.new.items entries.new.entries }
    ensures capacity { vec_capacity moved.new ≡ vec_capacity moved.old }
    ensures bound { length entries.new.entries + length moved.new.items ≤ length entries.old.entries + length moved.old.items }
    ensures shorter { IsTrue result → length moved.new.items < length moved.old.items }
{
    let Some(last) = moved.pop() else {
        return false;
    };
    match entries.insert(last.0, last.1) {
        Ok(_) => true,
        Err(failed) => {
            moved.push_reserved(failed.value);
            false
        }
    }
}

// Puts the moved entries into the tree, as far as there is memory.
pub(crate) fn put_away<V: Drop>(moved: &mut Vec<(Name, V)>, entries: &mut BTreeMap<Name, V>)
    requires { AreNew name_cmp moved.old.items entries.old.entries }
    ensures same { (q : _) → lookup (is_at (name_cmp q)) (moved.new.items ++ entries.new.entries)
        ≡ lookup (is_at (name_cmp q)) (moved.old.items ++ entries.old.entries) }
    ensures fresh { AreNew name_cmp moved.new.items entries.new.entries }
    ensures capacity { vec_capacity moved.new ≡ vec_capacity moved.old }
    ensures bound { length entries.new.entries + length moved.new.items ≤ length entries.old.entries + length moved.old.items }
{
    while put_one_away(moved, entries) {}
}
