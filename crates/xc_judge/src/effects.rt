ghost use Rattle.std.specs.Bool.{Decides};
ghost use Rattle.std.specs.Prelude.{◌≡◌, ◌+◌, map, take, drop};
ghost use Rattle.xc_judge.specs.Traced.{ends_of, shown_ends};
ghost use Rattle.xc_lines.specs.declared.shown.EffectShown.TheVariants as standing;
ghost use Rattle.xc_sheet.specs.Ends.{effect_shown, kind_shown};
ghost use Rattle.xc_shown.specs.Shown.{effects_shown, record_shown};

use crate::same::{same_bytes, same_name, same_num};
use xc_data::{Chunk, Name, Num, Undo, UndoEnd};
use xc_lines::{EffectShown, UndoKind};
use xc_world::remaining_from;

// ---- their kinds

// A record is of this kind.
fn has_kind(undo: &Undo, kind: UndoKind) -> bool
    ensures { Decides result (kind_shown undo.now ≡ kind) }
{
    match undo {
        Undo::Overwrite { .. } => matches!(kind, UndoKind::Bytes),
        Undo::Append { .. } => matches!(kind, UndoKind::Tail),
        Undo::Create { .. } => matches!(kind, UndoKind::Made),
        Undo::Rename { .. } => matches!(kind, UndoKind::Moved),
        Undo::NewPipe(_) => matches!(kind, UndoKind::Pipe),
        Undo::NewPair(_) => matches!(kind, UndoKind::Pair),
    }
}

/// Records with the ends that are shown have the kinds that are shown.
pub(crate) fn have_kinds(mut records: &[(Undo, UndoEnd)], mut shown: &[(UndoKind, UndoEnd)]) -> bool
    requires ends { ends_of records.now ≡ shown_ends shown.now }
    ensures { Decides result (map record_shown records.entry.now ≡ shown.entry.now) }
{
    while let [record, records_behind @ ..] = records {
        let [kind, shown_behind @ ..] = shown else {
            return false;
        };
        if !has_kind(&record.0, kind.0) {
            return false;
        }
        records = records_behind;
        shown = shown_behind;
    }
    true
}

// ---- the effects that stand

// The first bytes, or all where those are fewer.
fn front(bytes: &[u8], n: usize) -> &[u8]
    ensures { result.now ≡ take n bytes.now }
{
    if n >= bytes.len() {
        return bytes;
    }
    &bytes[..n]
}

// The bytes from a place on, which may lie past the last one.
fn behind(bytes: &[u8], at: usize) -> &[u8]
    ensures { result.now ≡ drop at bytes.now }
{
    if at >= bytes.len() {
        return &[];
    }
    &bytes[at..]
}

// The effect of a record is this one, of bytes that were overwritten.
fn is_overwrite(undo: &Undo, from: u32, num: Num, place: u64, bytes: &Chunk) -> bool
    ensures { Decides result (effect_shown undo.now from ≡ standing.Bytes num place bytes.now) }
{
    match undo {
        Undo::Overwrite {
            file,
            at,
            after,
            n,
            ..
        } => {
            let stands = behind(front(after.as_slice(), *n as usize), from as usize);
            *at as u64 + from as u64 == place
                && same_num(*file, num)
                && same_bytes(stands, bytes.as_slice())
        }
        Undo::Append { .. } | Undo::Create { .. } | Undo::Rename { .. } => false,
        Undo::NewPipe(_) | Undo::NewPair(_) => false,
    }
}

// It is this one, of bytes behind a file's end.
fn is_tail(undo: &Undo, k: u32, num: Num, place: u32, bytes: &Chunk) -> bool
    ensures { Decides result (effect_shown undo.now k ≡ standing.Tail num place bytes.now) }
{
    match undo {
        Undo::Append {
            file,
            from,
            after,
            n,
        } => {
            let stands = front(after.as_slice(), *n as usize);
            *from == place && same_num(*file, num) && same_bytes(stands, bytes.as_slice())
        }
        Undo::Overwrite { .. } | Undo::Create { .. } | Undo::Rename { .. } => false,
        Undo::NewPipe(_) | Undo::NewPair(_) => false,
    }
}

// It is this one, of a file that was made.
fn is_made(undo: &Undo, k: u32, named: &Name, made: Num) -> bool
    ensures { Decides result (effect_shown undo.now k ≡ standing.Made named.now made) }
{
    match undo {
        Undo::Create { name, num } => same_num(*num, made) && same_name(name.value(), named),
        Undo::Overwrite { .. } | Undo::Append { .. } | Undo::Rename { .. } => false,
        Undo::NewPipe(_) | Undo::NewPair(_) => false,
    }
}

// It is this one, of a file that took another name.
fn is_moved(undo: &Undo, k: u32, old: &Name, new_name: &Name) -> bool
    ensures { Decides result (effect_shown undo.now k ≡ standing.Moved old.now new_name.now) }
{
    match undo {
        Undo::Rename { from, to } => {
            same_name(from.value(), old) && same_name(to.value(), new_name)
        }
        Undo::Overwrite { .. } | Undo::Append { .. } | Undo::Create { .. } => false,
        Undo::NewPipe(_) | Undo::NewPair(_) => false,
    }
}

// The effect of a record from this place of its bytes on is the one that is shown.
fn is_effect(undo: &Undo, from: u32, effect: &EffectShown) -> bool
    ensures { Decides result (effect_shown undo.now from ≡ effect.now) }
{
    match effect {
        EffectShown::Bytes { file, at, bytes } => is_overwrite(undo, from, *file, *at, bytes),
        EffectShown::Tail {
            file,
            from: place,
            bytes,
        } => is_tail(undo, from, *file, *place, bytes),
        EffectShown::Made { name, num } => is_made(undo, from, name.value(), *num),
        EffectShown::Moved { from: old, to } => is_moved(undo, from, old.value(), to.value()),
        EffectShown::Pipe(num) => matches!(undo, Undo::NewPipe(other) if same_num(*other, *num)),
        EffectShown::Pair(num) => matches!(undo, Undo::NewPair(other) if same_num(*other, *num)),
    }
}

/// Records leave these effects.
pub(crate) fn have_effects(mut records: &[(Undo, UndoEnd)], mut effects: &[EffectShown]) -> bool
    ensures { Decides result (effects_shown records.entry.now ≡ effects.entry.now) }
{
    while let [record, records_behind @ ..] = records {
        records = records_behind;
        let Some(from) = remaining_from(&record.0, &record.1) else {
            continue;
        };
        let [effect, effects_behind @ ..] = effects else {
            return false;
        };
        if !is_effect(&record.0, from, effect) {
            return false;
        }
        effects = effects_behind;
    }
    effects.is_empty()
}
