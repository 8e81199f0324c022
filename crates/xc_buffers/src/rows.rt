//! A list of kept items in the reverse order: the first item of a source stands after the others of it, so that one goes
//! in and out there and moves only items of other sources.
ghost use Rattle.std.specs.Prelude.{◌≡◌, ◌<◌, ◌≤◌, ◌+◌, ◌-◌, ◌^◌, true, false, min, length, reverse, vec_len, vec_capacity};
ghost use Rattle.std.specs.Prelude.{MatchOption, OnErr, IfOk};
ghost use Rattle.std.specs.List.{sum_by};
ghost use Rattle.xc_buffers.specs.Changes.{PutsFront, TakesBytes, TakesMessage};
ghost use Rattle.xc_buffers.specs.Items.{AreKept, IsInOrder, is_fit, item_bytes, items_from, keeps_from};
ghost use Rattle.xc_buffers.specs.Places.{IsFirst, IsPlace, IsSourceStart};
ghost use Rattle.xc_buffers.specs.declared.source.Endpoint.TheVariants.{Pipe, Side};

use crate::source::Endpoint;
use xc_data::{Chunk, KeptItem, NoMemory, Num};

fn place_of(items: &[KeptItem], source: Endpoint) -> usize
    requires { IsInOrder (reverse items.now) }
    ensures within { result ≤ length items.now }
    ensures place { IsPlace source items.now result }
{
    items.partition_point(|item| !Endpoint::of(item).is_before(source))
}

fn start_of(items: &[KeptItem], source: Endpoint) -> usize
    requires { IsInOrder (reverse items.now) }
    ensures within { result ≤ length items.now }
    ensures start { IsSourceStart source items.now result }
{
    items.partition_point(|item| source.is_before(Endpoint::of(item)))
}

// The items of a source, which stand side by side.
pub(crate) fn part_of(items: &[KeptItem], source: Endpoint) -> &[KeptItem]
    requires { IsInOrder (reverse items.now) }
    ensures { result.now ≡ items_from source items.now }
{
    let from = start_of(items, source);
    let to = place_of(items, source);
    &items[from..to]
}

/// The place of the first item of a source, where one is kept.
pub(crate) fn first_of(items: &[KeptItem], source: Endpoint) -> Option<usize>
    requires { IsInOrder (reverse items.now) }
    ensures { MatchOption result (keeps_from source items.now ≡ false) (λ at. IsFirst source items.now at) }
{
    let behind = place_of(items, source);
    if behind == 0 {
        return None;
    }
    if source.is_before(Endpoint::of(&items[behind - 1])) {
        return None;
    }
    Some(behind - 1)
}

/// Puts an item in front of those of its source. It takes no memory.
pub(crate) fn put_front(items: &mut Vec<KeptItem>, item: KeptItem)
    requires room { vec_len items.old < vec_capacity items.old }
    requires kept { AreKept (reverse items.old.items) }
    requires fit { is_fit item ≡ true }
    ensures put { PutsFront item (reverse items.old.items) (reverse items.new.items) }
    ensures kept { AreKept (reverse items.new.items) }
    ensures len { vec_len items.new ≡ vec_len items.old + 1 }
    ensures capacity { vec_capacity items.new ≡ vec_capacity items.old }
{
    let at = place_of(items, Endpoint::of(&item));
    match items.insert(at, item) {
        Ok(()) => {}
        Err(_) => unreachable!(),
    }
}

fn chunk_of(item: &KeptItem) -> &Chunk
    ensures { result.now ≡ item_bytes item.now }
{
    match item {
        KeptItem::Bytes { bytes, .. } | KeptItem::Message { bytes, .. } => bytes,
    }
}

fn into_chunk(item: KeptItem) -> Chunk
    ensures { result ≡ item_bytes item }
{
    match item {
        KeptItem::Bytes { bytes, .. } | KeptItem::Message { bytes, .. } => bytes,
    }
}

/// Takes at most n bytes out of the first item of a pipe. What is left of a longer one stays in its place, and no byte is
/// copied.
pub(crate) fn take_bytes(
    items: &mut Vec<KeptItem>,
    at: usize,
    pipe: Num,
    n: usize,
) -> Result<Chunk, NoMemory>
    requires first { IsFirst (Pipe pipe) items.old.items at }
    requires kept { AreKept (reverse items.old.items) }
    requires some { 1 ≤ n }
    ensures some { IfOk result (λ front. 1 ≤ length front) }
    ensures most { IfOk result (λ front. length front ≤ n) }
    ensures taken { IfOk result (λ front. TakesBytes pipe front (reverse items.old.items) (reverse items.new.items)) }
    ensures err { OnErr result (items.new.items ≡ items.old.items) }
    ensures kept { AreKept (reverse items.new.items) }
    ensures len { vec_len items.new ≤ vec_len items.old }
    ensures capacity { vec_capacity items.new ≡ vec_capacity items.old }
{
    let bytes = chunk_of(&items[at]);
    if bytes.len() <= n {
        return Ok(into_chunk(items.remove(at)));
    }
    let alloc = *items.allocator();
    let front = bytes.part(alloc, 0, n)?;
    let rest = bytes.part(alloc, n, bytes.len())?;
    items[at] = KeptItem::Bytes { pipe, bytes: rest };
    Ok(front)
}

/// Takes the first message of a side of a pair out. It takes no memory.
pub(crate) fn take_message(items: &mut Vec<KeptItem>, at: usize, pair: Num, side: u8) -> Chunk
    requires first { IsFirst (Side pair side) items.old.items at }
    requires kept { AreKept (reverse items.old.items) }
    ensures short { length result ≤ 1024 }
    ensures taken { TakesMessage pair side result (reverse items.old.items) (reverse items.new.items) }
    ensures kept { AreKept (reverse items.new.items) }
    ensures len { vec_len items.new + 1 ≡ vec_len items.old }
    ensures capacity { vec_capacity items.new ≡ vec_capacity items.old }
{
    into_chunk(items.remove(at))
}

/// How many bytes the items have, 4,294,967,295 where there are more.
pub(crate) fn total_of(items: &[KeptItem]) -> u32
    ensures { result ≡ min (sum_by (λ t. length (item_bytes t)) items.now) (2 ^ 32 - 1) }
{
    let mut total: u32 = 0;
    for item in items {
        total = total.saturating_add(capped(chunk_of(item).len()));
    }
    total
}

/// A count, 4,294,967,295 where it is more.
pub(crate) fn capped(n: usize) -> u32
    ensures { result ≡ min n (2 ^ 32 - 1) }
{
    n.min(u32::MAX as usize) as u32
}
