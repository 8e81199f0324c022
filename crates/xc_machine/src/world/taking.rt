ghost use Rattle.std.specs.Prelude.{◌≡◌, false, is_some, IfOk, OnErr, MatchBool};
ghost use Rattle.std.specs.FinMap as map;
ghost use Rattle.xc_data.specs.declared.entry.KeptItem.TheVariants.{Bytes, Message};
ghost use Rattle.xc_machine.specs.Taking.{Takes, IsNotInFront};

use super::World;
use super::shared::shared;
use xc_data::{Chunk, KeptItem, NoMemory, Num};

impl World {
    // There is such a pipe.
    fn has_pipe(&self, num: Num) -> bool
        ensures { result ≡ is_some (map.get self.now.pipes num) }
    {
        self.pipes.get(num).is_some()
    }

    // Takes these bytes out of a pipe, where it holds them in front.
    fn take_bytes(&mut self, pipe: Num, bytes: &[u8]) -> Result<bool, NoMemory>
        ensures taken { IfOk result (λ yes.
            MatchBool yes (Takes (Bytes pipe bytes.now) self.old self.new) (IsNotInFront (Bytes pipe bytes.now) self.old)) }
        ensures same { IfOk result (λ yes. yes ≡ false → self.new ≡ self.old) }
        ensures err { OnErr result (self.new ≡ self.old) }
    {
        if !self.has_pipe(pipe) {
            return Ok(false);
        }
        let Some(rest) = self.held(pipe).strip_prefix(bytes) else {
            return Ok(false);
        };
        let rest = Chunk::new(self.alloc, rest)?;
        self.set_held(pipe, rest)?;
        Ok(true)
    }

    // Takes this message from those for a side of a pair, where it is the first.
    fn take_message(&mut self, pair: Num, side: u8, bytes: &[u8]) -> Result<bool, NoMemory>
        ensures taken { IfOk result (λ yes.
            MatchBool yes (Takes (Message pair side bytes.now) self.old self.new) (IsNotInFront (Message pair side bytes.now) self.old)) }
        ensures same { IfOk result (λ yes. yes ≡ false → self.new ≡ self.old) }
        ensures err { OnErr result (self.new ≡ self.old) }
    {
        let [first, rest @ ..] = self.waiting(pair, side) else {
            return Ok(false);
        };
        if first.as_slice() != bytes {
            return Ok(false);
        }
        let rest = shared(self.alloc, rest)?;
        self.set_waiting(pair, side, rest)?;
        Ok(true)
    }

    /// Takes an item out of its pipe or its pair, where it stands in front there. Whether it stood there.
    pub fn take_front(&mut self, item: &KeptItem) -> Result<bool, NoMemory>
        ensures taken { IfOk result (λ yes. MatchBool yes (Takes item.now self.old self.new) (IsNotInFront item.now self.old)) }
        ensures same { IfOk result (λ yes. yes ≡ false → self.new ≡ self.old) }
        ensures err { OnErr result (self.new ≡ self.old) }
    {
        match item {
            KeptItem::Bytes { pipe, bytes } => self.take_bytes(*pipe, bytes.as_slice()),
            KeptItem::Message { pair, side, bytes } => self.take_message(
                *pair,
                *side,
                bytes.as_slice(),
            ),
        }
    }
}
