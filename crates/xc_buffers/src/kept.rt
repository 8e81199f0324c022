ghost use Rattle.std.specs.Prelude.{◌≡◌, ◌≢◌, ◌≤◌, ◌<◌, ◌+◌, ◌-◌, ◌^◌, [], true, min, length, IsOk, OnOk, OnErr, IfOk};
ghost use Rattle.xc_data.specs.declared.entry.KeptItem.TheVariants.{Bytes, Message};
ghost use Rattle.xc_data.specs.declared.private.Place.TheVariants.{Pipe};
ghost use Rattle.xc_world.specs.Run.{bytes_taken, given_back};
ghost use Rattle.xc_world.specs.World.{World};
ghost use Rattle.xc_buffers.specs.Changes.{PutsFront, FindsBytes, FindsMessage};
ghost use Rattle.xc_buffers.specs.Items.{AreKept, is_fit, kept_count};

use crate::rows::{capped, first_of, part_of, put_front, take_bytes, take_message, total_of};
use crate::source::Endpoint;
use std::alloc::Global;
use std::marker::Model;
use xc_data::{Chunk, Items, KeptItem, KeptList, NoMemory, Num, Object};

/// What aborted transactions took from pipes and pairs, for the readers after them.
///
/// What is given back stands in front of what is kept of the same pipe or side, and needs no memory: its room was made
/// before it was taken.
#[derive(Drop)]
pub struct Kept {
    // in the reverse order
    items: Vec<KeptItem>,
}

impl Model for Kept {
    ghost use Rattle.std.specs.Prelude.{◌-◌, reverse, vec_len, vec_capacity};
    ghost use Rattle.xc_buffers.specs.Items.{AreKept};
    ghost use Rattle.xc_buffers.specs.Views.{KeptView};

    ghost Value = { KeptView };

    ghost view = { λ a. record { items = reverse a.items.items; spare = vec_capacity a.items - vec_len a.items } };

    ghost invariant = { λ a. AreKept (reverse a.items.items) };
}

impl Kept {
    /// Nothing is kept. It takes no memory.
    pub fn new(alloc: Global) -> Kept
        ensures { result.items ≡ [] }
    {
        Kept {
            items: Vec::new(alloc),
        }
    }

    /// Makes room for n items, so many as may be given back. It takes memory only where there is less.
    pub fn reserve(&mut self, n: u32) -> Result<(), NoMemory>
        ensures ok { OnOk result (n ≤ self.new.spare) }
        ensures items { self.new.items ≡ self.old.items }
        ensures spare { self.old.spare ≤ self.new.spare }
        ensures succeeds { n ≤ self.old.spare → IsOk result }
        ensures err { OnErr result (self.new ≡ self.old) }
    {
        let wanted = n as usize;
        if wanted <= self.spare() {
            return Ok(());
        }
        Ok(self.items.reserve(wanted.max(self.items.len()))?)
    }

    /// How many more items go in without memory. What is kept is in order, and each item is fit.
    pub fn spare(&self) -> usize
        ensures value { result ≡ self.now.spare }
        ensures kept { AreKept self.now.items }
    {
        self.items.capacity() - self.items.len()
    }

    /// Takes at most n bytes that are kept of a pipe: the first of them. Of a longer piece the rest stays, and no byte is
    /// copied.
    pub fn take_front(&mut self, pipe: Num, n: u32) -> Result<Option<Chunk>, NoMemory>
        ensures ok { IfOk result (λ found. FindsBytes pipe n found self.old.items self.new.items) }
        ensures err { OnErr result (self.new.items ≡ self.old.items) }
        ensures spare { self.old.spare ≤ self.new.spare }
        ensures in_order { AreKept self.old.items → AreKept self.new.items }
    {
        if n == 0 {
            return Ok(None);
        }
        match first_of(&self.items, Endpoint::Pipe(pipe)) {
            Some(at) => Ok(Some(take_bytes(&mut self.items, at, pipe, n as usize)?)),
            None => Ok(None),
        }
    }

    // Puts an item in front of those of its source.
    pub(crate) fn give(&mut self, item: KeptItem)
        requires room { 1 ≤ self.old.spare }
        requires fit { is_fit item ≡ true }
        ensures given { PutsFront item self.old.items self.new.items }
        ensures spare { self.new.spare + 1 ≡ self.old.spare }
        ensures in_order { AreKept self.old.items → AreKept self.new.items }
    {
        put_front(&mut self.items, item);
    }

    /// Puts bytes in front of those that are kept of a pipe. No bytes add nothing. It takes no memory.
    pub fn give_back(&mut self, pipe: Num, bytes: Chunk)
        requires { 1 ≤ self.old.spare }
        ensures given { bytes ≢ [] → PutsFront (Bytes pipe bytes) self.old.items self.new.items }
        ensures none { bytes ≡ [] → self.new ≡ self.old }
        ensures world { (w : World)
            → given_back w self.new.items ≡ given_back (given_back w self.old.items) (bytes_taken (Pipe pipe) bytes) }
        ensures spare { self.old.spare ≤ self.new.spare + 1 }
        ensures in_order { AreKept self.old.items → AreKept self.new.items }
    {
        if bytes.is_empty() {
            return;
        }
        self.give(KeptItem::Bytes { pipe, bytes });
    }

    /// Takes the first message that is kept for a side of a pair. It takes no memory.
    pub fn take_msg(&mut self, pair: Num, side: u8) -> Option<Chunk>
        ensures found { FindsMessage pair side result self.old.items self.new.items }
        ensures spare { self.old.spare ≤ self.new.spare }
        ensures in_order { AreKept self.old.items → AreKept self.new.items }
    {
        match first_of(&self.items, Endpoint::Side { pair, side }) {
            Some(at) => Some(take_message(&mut self.items, at, pair, side)),
            None => None,
        }
    }

    /// Puts a message in front of those that are kept for a side of a pair. It takes no memory.
    pub fn give_msg(&mut self, pair: Num, side: u8, message: Chunk)
        requires room { 1 ≤ self.old.spare }
        requires side { side < 2 }
        requires short { length message ≤ 1024 }
        ensures given { PutsFront (Message pair side message) self.old.items self.new.items }
        ensures spare { self.new.spare + 1 ≡ self.old.spare }
        ensures in_order { AreKept self.old.items → AreKept self.new.items }
    {
        self.give(KeptItem::Message {
            pair,
            side,
            bytes: message,
        });
    }

    /// How many bytes are kept of a pipe, or how many messages for a side of a pair; 4,294,967,295 where there are more.
    /// It takes no memory. What is kept is in order, and each item is fit.
    pub fn held(&self, object: &Object, side: u8) -> u32
        ensures value { result ≡ min (kept_count object.now side self.now.items) (2 ^ 32 - 1) }
        ensures kept { AreKept self.now.items }
    {
        match object {
            Object::Pipe(pipe) => total_of(part_of(&self.items, Endpoint::Pipe(*pipe))),
            Object::Pair(pair) => {
                capped(part_of(&self.items, Endpoint::Side { pair: *pair, side }).len())
            }
            Object::Word(_) | Object::Name(_) | Object::File(_) | Object::Jobs => 0,
        }
    }

    /// All that is kept: pipes by number, then pairs by number and side, each with its first item first. It takes no memory.
    pub fn into_items(self) -> KeptList
        ensures items { result ≡ self.items }
        ensures kept { AreKept result }
    {
        let mut items = self.items;
        items.reverse();
        Items::from_vec(items).trimmed()
    }
}
