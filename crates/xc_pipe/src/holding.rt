ghost use Rattle.std.specs.Prelude.{◌≡◌, ◌≤◌, ◌<◌, ◌+◌, ◌++◌, [], length, IfOk, OnOk, OnErr};
ghost use Rattle.xc_buffers.specs.Items.{AreKept, kept_bytes};
ghost use Rattle.xc_world.specs.Run.{given_back};
ghost use Rattle.xc_world.specs.World.{World};
ghost use Rattle.xc_calls.specs.Taking.{bytes_back};

use std::alloc::Global;
use xc_buffers::Kept;
use xc_data::{Chunk, NoMemory, Num};

fn joined(alloc: Global, front: &Chunk, more: &Chunk) -> Result<Chunk, NoMemory>
    requires { length front.now + length more.now ≤ 1024 }
    ensures { IfOk result (λ all. all ≡ front.now ++ more.now) }
{
    let mut bytes = Vec::with_capacity(alloc, front.len() + more.len())?;
    bytes.extend_from_slice(front.as_slice())?;
    bytes.extend_from_slice(more.as_slice())?;
    Chunk::from_vec(bytes)
}

/// Joins what was taken from a pipe. Where memory runs out, all of it is given back. The first piece is copied nowhere.
pub(crate) fn join(
    alloc: Global,
    kept: &mut Kept,
    pipe: Num,
    front: Chunk,
    more: Chunk,
) -> Result<Chunk, NoMemory>
    requires few { length front + length more ≤ 1024 }
    requires room { 2 ≤ kept.old.spare }
    ensures all { IfOk result (λ all. all ≡ front ++ more) }
    ensures kept { OnOk result (kept.new ≡ kept.old) }
    ensures err { OnErr result ((w : World)
        → given_back w kept.new.items ≡ given_back (given_back w kept.old.items) (bytes_back pipe (front ++ more))) }
    ensures spare { kept.old.spare ≤ kept.new.spare + 2 }
    ensures in_order { AreKept kept.old.items → AreKept kept.new.items }
{
    if front.is_empty() {
        return Ok(more);
    }
    match joined(alloc, &front, &more) {
        Ok(all) => Ok(all),
        Err(error) => {
            kept.give_back(pipe, more);
            kept.give_back(pipe, front);
            Err(error)
        }
    }
}

/// Takes the first n bytes that are kept of a pipe, or all where those are fewer. Where memory runs out, all is given back.
pub(crate) fn take_kept(
    alloc: Global,
    kept: &mut Kept,
    pipe: Num,
    n: u32,
) -> Result<Chunk, NoMemory>
    requires few { n ≤ 1024 }
    requires room { 2 ≤ kept.old.spare }
    ensures most { IfOk result (λ front. length front ≤ n) }
    ensures taken { IfOk result (λ front. (w : World)
        → given_back w kept.old.items ≡ given_back (given_back w kept.new.items) (bytes_back pipe front)) }
    ensures left { IfOk result (λ front. length front < n → kept_bytes pipe kept.new.items ≡ []) }
    ensures room { OnOk result (kept.old.spare ≤ kept.new.spare) }
    ensures err { OnErr result ((w : World) → given_back w kept.new.items ≡ given_back w kept.old.items) }
    ensures spare { kept.old.spare ≤ kept.new.spare + 2 }
    ensures in_order { AreKept kept.old.items → AreKept kept.new.items }
{
    let mut front = Chunk::new(alloc, &[])?;
    while (front.len() as u32) < n {
        match kept.take_front(pipe, n - front.len() as u32) {
            Ok(Some(more)) => front = join(alloc, kept, pipe, front, more)?,
            Ok(None) => return Ok(front),
            Err(error) => {
                kept.give_back(pipe, front);
                return Err(error);
            }
        }
    }
    Ok(front)
}
