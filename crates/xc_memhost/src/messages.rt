ghost use Rattle.std.specs.Prelude.{◌≡◌, ◌<◌, ◌++◌, [], ◌∷◌, length, drop, IfSome, OnOk, OnErr};
ghost use Rattle.xc_memhost.specs.Pairs.{IsSmall, first_message};

use std::alloc::Global;
use std::marker::Model;
use xc_data::{Chunk, NoMemory};

/// The messages that wait for a side of a pair, the first in front.
#[derive(Drop)]
pub(crate) struct Messages {
    messages: Vec<Chunk>,
}

impl Model for Messages {
    ghost use Rattle.std.specs.Prelude.{ℕ, List};
    ghost use Rattle.xc_memhost.specs.Pairs.{AreFew};

    ghost Value = { List (List ℕ) };

    ghost view = { λ a. a.messages.items };

    ghost invariant = { λ a. AreFew a.messages.items };
}

impl Messages {
    pub(crate) fn none(alloc: Global) -> Messages
        ensures { result ≡ [] }
    {
        Messages {
            messages: Vec::new(alloc),
        }
    }

    pub(crate) fn len(&self) -> u32
        ensures { result ≡ length self.now }
    {
        self.messages.len() as u32
    }

    // The first leaves. None is copied, of it or of the rest.
    pub(crate) fn take(&mut self) -> Option<Chunk>
        ensures bound { IfSome result IsSmall }
        ensures first { result ≡ first_message self.old }
        ensures rest { self.new ≡ drop 1 self.old }
    {
        if self.messages.is_empty() {
            return None;
        }
        Some(self.messages.remove(0))
    }

    pub(crate) fn push(&mut self, message: Chunk) -> Result<(), NoMemory>
        requires few { length self.old < 8 }
        requires small { IsSmall message }
        ensures ok { OnOk result (self.new ≡ self.old ++ message ∷ []) }
        ensures err { OnErr result (self.new ≡ self.old) }
    {
        Ok(self.messages.push(message)?)
    }
}
