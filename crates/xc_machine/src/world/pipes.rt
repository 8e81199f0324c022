ghost use Rattle.std.specs.Prelude.{◌≡◌, ◌≤◌, ◌==◌, IfOk, OnOk, OnErr, if◌then◌else◌};
ghost use Rattle.xc_data.specs.Private.{place_of, lowest_vacant};
ghost use Rattle.xc_world.specs.World.{pipe_of, pair_of, with_pipe, with_pair, with_waiting, other_side, empty_pair};
ghost use Rattle.xc_world.specs.Act.Step.{step_to};
ghost use Rattle.xc_world.specs.Act.Pipes.{new_pipe, read_pipe_at, new_pair, receive_at};

use super::shared::shared;
use super::{MachinePair, MachinePipe, World};
use std::alloc::Global;
use xc_data::{Chunk, Items, NoMemory, Num, Place, Private, Reply};

// Nothing is there now, or ever again.
fn nothing(shut: bool) -> Reply
    ensures { result ≡ (if shut then Reply.End else Reply.Empty) }
{
    if shut {
        return Reply::End;
    }
    Reply::Empty
}

/// The other side of a pair.
pub(super) fn other_side(side: u8) -> u8
    ensures { result ≡ other_side side }
{
    if side == 0 {
        return 1;
    }
    0
}

impl World {
    /// Sets what a pipe holds.
    pub(super) fn set_held(&mut self, num: Num, held: Chunk) -> Result<(), NoMemory>
        ensures ok { OnOk result (self.new ≡ with_pipe self.old num (record (pipe_of self.old num) { held = held })) }
        ensures err { OnErr result (self.new ≡ self.old) }
    {
        let shut = self.is_pipe_shut(num);
        self.pipes.insert(num, MachinePipe { held, shut })
    }

    pub(super) fn make_pipe(&mut self, me: &mut Private, tx: u32) -> Result<Reply, NoMemory>
        requires made { me.old.made ≤ 16 }
        ensures ok { IfOk result (λ reply. new_pipe self.old me.old tx (lowest_vacant me.old.places) ≡ step_to self.new me.new reply) }
        ensures world { OnErr result (self.new ≡ self.old) }
        ensures me { OnErr result (me.new ≡ me.old) }
    {
        let Some(h) = me.vacant() else {
            return Ok(Reply::TooMuch);
        };
        let num = Num { tx, k: me.made };
        let held = Chunk::new(self.alloc, &[])?;
        self.pipes.insert(num, MachinePipe { held, shut: false })?;
        me.set_place(h, Place::Pipe(num));
        me.made += 1;
        Ok(Reply::Made(h))
    }

    pub(super) fn read_pipe(&mut self, me: &Private, h: u16, n: u64) -> Result<Reply, NoMemory>
        ensures ok { IfOk result (λ reply. read_pipe_at self.old me.now n (place_of me.now.places h) ≡ step_to self.new me.now reply) }
        ensures world { OnErr result (self.new ≡ self.old) }
    {
        let Place::Pipe(num) = me.place(h) else {
            return Ok(Reply::BadHandle);
        };
        if n == 0 {
            return Ok(Reply::Got(Chunk::new(self.alloc, &[])?));
        }
        let held = self.held(num);
        if held.is_empty() {
            return Ok(nothing(self.is_pipe_shut(num)));
        }
        let front = (n as usize).min(held.len());
        let got = Chunk::new(self.alloc, &held[..front])?;
        let rest = Chunk::new(self.alloc, &held[front..])?;
        self.set_held(num, rest)?;
        Ok(Reply::Got(got))
    }

    pub(super) fn make_pair(&mut self, me: &mut Private, tx: u32) -> Result<Reply, NoMemory>
        requires made { me.old.made ≤ 16 }
        ensures ok { IfOk result (λ reply. new_pair self.old me.old tx (lowest_vacant me.old.places) ≡ step_to self.new me.new reply) }
        ensures world { OnErr result (self.new ≡ self.old) }
        ensures me { OnErr result (me.new ≡ me.old) }
    {
        let Some(h) = me.vacant() else {
            return Ok(Reply::TooMuch);
        };
        let num = Num { tx, k: me.made };
        let mut next = *me;
        next.set_place(h, Place::Pair { num, side: 0 });
        let Some(g) = next.vacant() else {
            *me = next;
            return Ok(Reply::TooMuch);
        };
        next.set_place(g, Place::Pair { num, side: 1 });
        next.made += 1;
        self.pairs.insert(num, MachinePair::empty(self.alloc))?;
        *me = next;
        Ok(Reply::MadePair(h, g))
    }

    /// Sets the messages that wait for a side.
    pub(super) fn set_waiting(
        &mut self,
        num: Num,
        side: u8,
        messages: Items<Chunk>,
    ) -> Result<(), NoMemory>
        ensures ok { OnOk result (self.new ≡ with_pair self.old num (with_waiting (pair_of self.old num) side messages)) }
        ensures err { OnErr result (self.new ≡ self.old) }
    {
        let other = shared(self.alloc, self.waiting(num, other_side(side)))?;
        let shut = self.is_pair_shut(num);
        let pair = MachinePair::of(side, messages, other, shut);
        self.pairs.insert(num, pair)
    }

    pub(super) fn receive(&mut self, me: &Private, h: u16) -> Result<Reply, NoMemory>
        ensures ok { IfOk result (λ reply. receive_at self.old me.now (place_of me.now.places h) ≡ step_to self.new me.now reply) }
        ensures world { OnErr result (self.new ≡ self.old) }
    {
        let Place::Pair { num, side } = me.place(h) else {
            return Ok(Reply::BadHandle);
        };
        match self.waiting(num, side) {
            [] => Ok(nothing(self.is_pair_shut(num))),
            [first, rest @ ..] => {
                let message = first.share()?;
                let rest = shared(self.alloc, rest)?;
                self.set_waiting(num, side, rest)?;
                Ok(Reply::Got(message))
            }
        }
    }
}

impl MachinePair {
    pub(super) fn empty(alloc: Global) -> MachinePair
        ensures { result ≡ empty_pair }
    {
        MachinePair {
            first: Items::new(alloc),
            second: Items::new(alloc),
            shut: false,
        }
    }

    // A pair with these messages for a side and others for the other one.
    fn of(side: u8, messages: Items<Chunk>, other: Items<Chunk>, shut: bool) -> MachinePair
        ensures { result ≡ (if side == 0
            then record { first = messages; second = other; shut = shut }
            else record { first = other; second = messages; shut = shut }) }
    {
        if side == 0 {
            return MachinePair {
                first: messages,
                second: other,
                shut,
            };
        }
        MachinePair {
            first: other,
            second: messages,
            shut,
        }
    }
}
