ghost use Rattle.std.specs.Prelude.{◌≡◌, ◌≤◌, ◌+◌, ◌++◌, ◌∷◌, [], length, IfOk, OnOk};
ghost use Rattle.xc_world.specs.Act.Files.{overwritten};

use std::alloc::Global;
use xc_data::{Chunk, Items, NoMemory};

/// The bytes of a file with others in the place of those from `at` on.
pub(super) fn replaced(
    alloc: Global,
    file: &[u8],
    at: usize,
    bytes: &[u8],
) -> Result<Chunk, NoMemory>
    requires { at + length bytes.now ≤ length file.now }
    ensures { IfOk result (λ next. next ≡ overwritten at bytes.now file.now) }
{
    let mut next = Vec::with_capacity(alloc, file.len())?;
    next.extend_from_slice(&file[..at])?;
    next.extend_from_slice(bytes)?;
    next.extend_from_slice(&file[at + bytes.len()..])?;
    Chunk::from_vec(next)
}

/// The bytes with others after them.
pub(super) fn joined(alloc: Global, front: &[u8], bytes: &[u8]) -> Result<Chunk, NoMemory>
    ensures { IfOk result (λ next. next ≡ front.now ++ bytes.now) }
{
    let mut next = Vec::with_capacity(alloc, front.len().saturating_add(bytes.len()))?;
    next.extend_from_slice(front)?;
    next.extend_from_slice(bytes)?;
    Chunk::from_vec(next)
}

fn push_shared(messages: &mut Items<Chunk>, message: &Chunk) -> Result<(), NoMemory>
    ensures { OnOk result (messages.new ≡ messages.old ++ message.now ∷ []) }
{
    messages.push(message.share()?)
}

/// Another list of the same messages.
pub(super) fn shared(alloc: Global, messages: &[Chunk]) -> Result<Items<Chunk>, NoMemory>
    ensures { IfOk result (λ list. list ≡ messages.now) }
{
    let mut list = Items::new(alloc);
    for message in messages {
        push_shared(&mut list, message)?;
    }
    Ok(list)
}
