ghost use Rattle.std.specs.Prelude.{◌≡◌, ◌<◌, ◌≤◌, ℕ, length, None, IfSome, IfNone, IfOk, IfErr, OnOk, OnErr};
ghost use Rattle.std.specs.FinMap as map;
ghost use Rattle.xc_locks.specs.Keys.{word_holder};
ghost use Rattle.xc_locks.specs.Others.{MayHold, IsReason};
ghost use Rattle.xc_locks.specs.Rows.{mode_among, with_mode};
ghost use Rattle.xc_locks.specs.Words.{words_of};

use crate::object_holders::ObjectHolders;
use crate::refusal::Refusal;
use std::alloc::Global;
use std::marker::Model;
use xc_data::{Mode, NoMemory};

/// Who holds which word, and in which mode. The holders of a word stand at its place in a list, since words are claimed most.
#[derive(Drop)]
pub struct WordLocks {
    alloc: Global,
    // For each word up to the greatest that was claimed, who holds it.
    holders: Vec<ObjectHolders>,
}

impl Model for WordLocks {
    ghost use Rattle.std.specs.FinMap as map;
    ghost use Rattle.xc_data.specs.declared.claim.Mode.{Mode};
    ghost use Rattle.xc_locks.specs.Keys.{word_holder_cmp, coded_word_holder, coded_mode};
    ghost use Rattle.xc_locks.specs.Words.{words_of};

    ghost Value = { map.FinMap word_holder_cmp Mode };

    ghost coded = { map.code coded_word_holder coded_mode };

    ghost view = { λ a. words_of a.holders.items };
}

// Makes the list longer, up to a word. Nobody holds the words that are new.
fn grow(holders: &mut Vec<ObjectHolders>, at: usize) -> Result<(), NoMemory>
    ensures reach { OnOk result (at < length holders.new.items) }
    ensures beyond { OnErr result (length holders.new.items ≤ at) }
    ensures same { words_of holders.new.items ≡ words_of holders.old.items }
{
    while holders.len() <= at {
        holders.push(ObjectHolders::nobody())?;
    }
    Ok(())
}

impl WordLocks {
    /// Nobody holds a word. It takes no memory.
    pub fn new(alloc: Global) -> Self
        ensures { result ≡ map.empty }
    {
        WordLocks {
            alloc,
            holders: Vec::new(alloc),
        }
    }

    /// The holders of a word, if the list reaches it.
    pub fn holders_of(&self, at: u32) -> Option<&ObjectHolders>
        ensures some { IfSome result (λ m. (n : ℕ) → map.get self.now (word_holder at n) ≡ mode_among m.now n) }
        ensures none { IfNone result ((n : ℕ) → map.get self.now (word_holder at n) ≡ None) }
    {
        self.holders.get(at as usize)
    }

    /// A transaction holds a word in this mode, or in the stronger one where it did already. Only a new holder can run out of memory.
    pub fn hold(&mut self, at: u32, tx: u32, mode: Mode) -> Result<(), NoMemory>
        ensures ok { OnOk result
            (self.new ≡ map.insert self.old (word_holder at tx) (with_mode (map.get self.old (word_holder at tx)) mode)) }
        ensures err { OnErr result (self.new ≡ self.old) }
        ensures absent { OnErr result (map.get self.old (word_holder at tx) ≡ None) }
    {
        grow(&mut self.holders, at as usize)?;
        self.holders[at as usize].hold(self.alloc, tx, mode)?;
        Ok(())
    }

    /// The same, unless the smallest other holder has a mode that isn't compatible. Gives the mode in which the transaction held the
    /// word before.
    pub fn claim(&mut self, at: u32, tx: u32, mode: Mode) -> Result<Option<Mode>, Refusal>
        ensures was { IfOk result (λ was. was ≡ map.get self.old (word_holder at tx)) }
        ensures free { OnOk result (MayHold (λ n. map.get self.old (word_holder at n)) tx mode) }
        ensures ok { OnOk result
            (self.new ≡ map.insert self.old (word_holder at tx) (with_mode (map.get self.old (word_holder at tx)) mode)) }
        ensures err { OnErr result (self.new ≡ self.old) }
        ensures reason { IfErr result (IsReason (λ n. map.get self.old (word_holder at n)) tx mode) }
    {
        grow(&mut self.holders, at as usize)?;
        self.holders[at as usize].claim(self.alloc, tx, mode)
    }

    /// A transaction holds a word no longer. Gives the mode in which it did. It takes no memory.
    pub fn remove(&mut self, at: u32, tx: u32) -> Option<Mode>
        ensures value { result ≡ map.get self.old (word_holder at tx) }
        ensures removed { self.new ≡ map.remove self.old (word_holder at tx) }
    {
        self.holders.get_mut(at as usize)?.remove(tx)
    }
}
