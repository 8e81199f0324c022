ghost use Rattle.std.specs.Prelude.{◌≡◌, ◌≢◌, ◌≤◌, ◌<◌, ◌+◌, ◌^◌, ◌∷◌, [], ℕ, length, take, IsTrue};
ghost use Rattle.std.specs.declared.option.Option.TheVariants.{None};
ghost use Rattle.std.specs.List.{list_any, position};
ghost use Rattle.xc_data.specs.Counts.{RisesBy};
ghost use Rattle.xc_data.specs.Faults.{end_faults};
ghost use Rattle.xc_data.specs.Claims.{is_object};
ghost use Rattle.xc_data.specs.declared.script.HostCallKind.TheVariants.{Restore};
ghost use Rattle.xc_world.specs.Effects.{IsCovered};
ghost use Rattle.xc_world.specs.Ends.{share_object, is_undone, stands_in_way, blocker, IsLegalEnd};
ghost use Rattle.xc_host.specs.Contents.{Contents, world_of, wrote_front};
ghost use Rattle.xc_host.specs.Model.{IsUsed};
ghost use Rattle.xc_host.specs.Uses.{Uses, MovesBy};
ghost use Rattle.xc_compensate.specs.Records.{IsRecord};
ghost use Rattle.xc_compensate.specs.Restoring.{IsStep, IsRestoreEnd, FitsIn, done_by};
ghost use Rattle.xc_compensate.specs.Undoes.{Undoes};

use crate::taking_back::take_back;
use std::alloc::Global;
use xc_data::{Num, Object, Undo, UndoEnd};
use xc_host::{Host, a_front_grows, a_write_keeps_the_length};

// ---- what blocks a record

fn is_among(object: &Object, objects: &[Object]) -> bool
    ensures { result ≡ list_any (is_object object.now) objects.now }
{
    objects.iter().any(|other| object == other)
}

fn share_object(alloc: Global, a: &Undo, b: &Undo) -> bool
    ensures { result ≡ share_object a.now b.now }
{
    let objects = a.objects(alloc);
    let others = b.objects(alloc);
    objects
        .as_slice()
        .iter()
        .any(|object| is_among(object, others.as_slice()))
}

/// Whether a record that came to this end is undone.
pub(crate) fn is_undone(end: UndoEnd) -> bool
    ensures { result ≡ is_undone end }
{
    matches!(end, UndoEnd::Undone { .. })
}

fn blocks(alloc: Global, older: &Undo, newer: &(Undo, UndoEnd)) -> bool
    ensures { result ≡ stands_in_way older.now newer.now }
{
    !is_undone(newer.1) && share_object(alloc, older, &newer.0)
}

// How many records lie between an older one and the first that blocks it.
fn way(alloc: Global, older: &Undo, newer: &[(Undo, UndoEnd)]) -> Option<usize>
    ensures { result ≡ position (stands_in_way older.now) newer.now }
{
    newer.iter().position(|record| blocks(alloc, older, record))
}

// The smallest number of a newer record in the way of the one of this number.
fn blocker(alloc: Global, number: u32, older: &Undo, newer: &[(Undo, UndoEnd)]) -> Option<u32>
    requires { number + length newer.now < 2 ^ 32 }
    ensures { result ≡ blocker (number + 1) older.now newer.now }
{
    match way(alloc, older, newer) {
        Some(between) => Some(number + 1 + between as u32),
        None => None,
    }
}

// ---- putting old bytes back

/// How far an overwrite is undone: `done` bytes are restored, and `faults` tries failed.
#[derive(Clone, Copy)]
struct RestoreProgress {
    done: u32,
    faults: u32,
}

// One call of the host, from the first byte on that isn't restored.
fn restore_more<H: Host>(
    host: &mut H,
    file: Num,
    at: u32,
    bytes: &[u8],
    progress: RestoreProgress,
) -> RestoreProgress
    requires left { progress.done < length bytes.now }
    requires room { at + length bytes.now < 2 ^ 32 }
    requires few { progress.faults + 1 < 2 ^ 32 }
    requires fits { IsTrue H.model.tells → FitsIn (H.model.contents host.old) file at bytes.now }
    ensures step { IsStep progress result (length bytes.now) }
    ensures fits { IsTrue H.model.tells → FitsIn (H.model.contents host.new) file at bytes.now }
    ensures effect { IsTrue H.model.tells → (was : Contents) → FitsIn was file at bytes.now
        → H.model.contents host.old ≡ wrote_front was file at (take progress.done bytes.now)
        → H.model.contents host.new ≡ wrote_front was file at (take result.done bytes.now) }
    ensures used { IsUsed H.model (Restore ∷ []) (record { old = host.old; new = host.new }) }
    ensures faults { (before : ℕ) → RisesBy progress.faults before (H.model.fault_count host.old)
        → RisesBy result.faults before (H.model.fault_count host.new) }
{
    a_front_grows();
    a_write_keeps_the_length();
    match host.restore(file, at + progress.done, &bytes[progress.done as usize..]) {
        Ok(count) => RestoreProgress {
            done: progress.done + count,
            faults: progress.faults,
        },
        Err(_) => RestoreProgress {
            done: progress.done,
            faults: progress.faults + 1,
        },
    }
}

// Puts the bytes back until all are restored or `tries` tries failed. A fault loses nothing of what
// was restored before it.
fn restore_whole<H: Host>(host: &mut H, file: Num, at: u32, bytes: &[u8], tries: u32) -> UndoEnd
    requires tries { 1 ≤ tries }
    requires some { 0 < length bytes.now }
    requires room { at + length bytes.now < 2 ^ 32 }
    requires fits { IsTrue H.model.tells → FitsIn (H.model.contents host.old) file at bytes.now }
    ensures end { IsRestoreEnd tries (length bytes.now) result }
    ensures effect { IsTrue H.model.tells
        → H.model.contents host.new ≡ wrote_front (H.model.contents host.old) file at (take (done_by (length bytes.now) result) bytes.now) }
    ensures uses { Uses H.model (record { old = host.old; new = host.new })
        (MovesBy Restore (done_by (length bytes.now) result) (end_faults result)) }
    ensures faults { RisesBy (end_faults result) (H.model.fault_count host.old) (H.model.fault_count host.new) }
{
    let mut progress = RestoreProgress { done: 0, faults: 0 };
    while (progress.done as usize) < bytes.len() {
        progress = restore_more(host, file, at, bytes, progress);
        if progress.faults == tries {
            return UndoEnd::Failed {
                done: progress.done,
                faults: tries,
            };
        }
    }
    UndoEnd::Undone {
        faults: progress.faults,
    }
}

// Undoes one record that nothing blocks.
fn undo_one<H: Host>(host: &mut H, undo: &Undo, tries: u32) -> UndoEnd
    requires tries { 1 ≤ tries }
    requires record { IsRecord undo.now }
    requires covered { IsTrue H.model.tells → IsCovered (world_of (H.model.contents host.old)) undo.now }
    ensures legal { IsLegalEnd tries undo.now result None }
    ensures undoes { Undoes H.model undo.now (record { old = host.old; new = host.new }) result }
{
    match undo {
        Undo::Overwrite {
            file,
            at,
            before,
            n,
            ..
        } => restore_whole(host, *file, *at, &before.as_slice()[..*n as usize], tries),
        Undo::Append { .. } | Undo::Create { .. } | Undo::Rename { .. } => take_back(
            host, undo, tries,
        ),
        Undo::NewPipe(_) | Undo::NewPair(_) => take_back(host, undo, tries),
    }
}

/// Tries one record of this number, after which only the given ones remain. It takes no memory.
pub(crate) fn try_one<H: Host>(
    alloc: Global,
    host: &mut H,
    number: u32,
    undo: &Undo,
    newer: &[(Undo, UndoEnd)],
    tries: u32,
) -> UndoEnd
    requires few { number + length newer.now < 2 ^ 32 }
    requires tries { 1 ≤ tries }
    requires record { IsRecord undo.now }
    requires covered { IsTrue H.model.tells → blocker (number + 1) undo.now newer.now ≡ None
        → IsCovered (world_of (H.model.contents host.old)) undo.now }
    ensures legal { IsLegalEnd tries undo.now result (blocker (number + 1) undo.now newer.now) }
    ensures undoes { Undoes H.model undo.now (record { old = host.old; new = host.new }) result }
    ensures still { blocker (number + 1) undo.now newer.now ≢ None → host.new ≡ host.old }
{
    match blocker(alloc, number, undo, newer) {
        Some(by) => UndoEnd::Blocked { by },
        None => undo_one(host, undo, tries),
    }
}
