ghost use Rattle.std.specs.Prelude.{◌≡◌, length, IfOk};
ghost use Rattle.xc_world.specs.World.{file_of, pipe_of, pair_of, waiting};

mod act;
mod effect;
mod file_body;
mod files;
mod fits;
mod late;
mod names;
mod opening;
mod parts;
mod pipes;
mod record;
mod shared;
mod taking;

use file_body::FileBody;
use opening::{names_of, words_of};
use std::alloc::{AllocError, Global};
use std::marker::Model;
use xc_data::{Chunk, IdentList, Items, NoMemory, Num, WordList};
use xc_maps::{NameMap, NumMap};

/// A pipe's bytes, and whether it is shut.
#[derive(Drop)]
pub(crate) struct MachinePipe {
    held: Chunk,
    shut: bool,
}

impl Model for MachinePipe {
    ghost use Rattle.xc_world.specs.World.{Pipe, coded_pipe};

    ghost Value = { Pipe };

    ghost coded = { coded_pipe };

    ghost view = { λ a. record { held = a.held; shut = a.shut } };
}

impl Clone for MachinePipe {
    ghost is_clone = { λ pipe copy. copy ≡ pipe };

    fn clone(&self) -> Result<Self, AllocError> {
        Ok(MachinePipe {
            held: self.held.clone()?,
            shut: self.shut,
        })
    }
}

/// A pair's messages that wait for side 0 and for side 1, and whether it is shut.
#[derive(Drop)]
pub(crate) struct MachinePair {
    first: Items<Chunk>,
    second: Items<Chunk>,
    shut: bool,
}

impl Model for MachinePair {
    ghost use Rattle.xc_world.specs.World.{Pair, coded_pair};

    ghost Value = { Pair };

    ghost coded = { coded_pair };

    ghost view = { λ a. record { first = a.first; second = a.second; shut = a.shut } };
}

impl Clone for MachinePair {
    ghost is_clone = { λ pair copy. copy ≡ pair };

    fn clone(&self) -> Result<Self, AllocError> {
        Ok(MachinePair {
            first: self.first.clone()?,
            second: self.second.clone()?,
            shut: self.shut,
        })
    }
}

/// The world of the plain machine.
#[derive(Drop)]
pub struct World {
    alloc: Global,
    words: WordList,
    names: NameMap<Num>,
    files: NumMap<FileBody>,
    pipes: NumMap<MachinePipe>,
    pairs: NumMap<MachinePair>,
    started: IdentList,
    blocks: IdentList,
}

impl Model for World {
    ghost use Rattle.xc_world.specs.World.{World as PlainWorld, coded_world};

    ghost Value = { PlainWorld };

    ghost coded = { coded_world };

    ghost view = { λ a.
        record {
          words = a.words;
          names = a.names;
          files = a.files;
          pipes = a.pipes;
          pairs = a.pairs;
          started = a.started;
          blocks = a.blocks;
        } };
}

impl World {
    /// An equal world.
    pub fn copy(&self) -> Result<World, NoMemory>
        ensures { IfOk result (λ copy. copy ≡ self.now) }
    {
        Ok(World {
            alloc: self.alloc,
            words: words_of(self.alloc, self.words.as_slice())?,
            names: self.names.copied()?,
            files: self.files.copied()?,
            pipes: self.pipes.copied()?,
            pairs: self.pairs.copied()?,
            started: names_of(self.alloc, self.started.as_slice(), &[])?,
            blocks: names_of(self.alloc, self.blocks.as_slice(), &[])?,
        })
    }

    pub(crate) fn alloc(&self) -> Global {
        self.alloc
    }

    pub(crate) fn word_count(&self) -> usize
        ensures { result ≡ length self.now.words }
    {
        self.words.len()
    }

    /// The words.
    pub fn words(&self) -> &[u64]
        ensures { result.now ≡ self.now.words }
    {
        self.words.as_slice()
    }

    // The bytes of a file.
    fn file(&self, num: Num) -> Result<Chunk, NoMemory>
        ensures { IfOk result (λ bytes. bytes ≡ file_of self.now num) }
    {
        match self.files.get(num) {
            Some(file) => file.whole(self.alloc),
            None => Chunk::new(self.alloc, &[]),
        }
    }

    // How many bytes a file has.
    fn file_len(&self, num: Num) -> usize
        ensures { result ≡ length (file_of self.now num) }
    {
        match self.files.get(num) {
            Some(file) => file.len(),
            None => 0,
        }
    }

    fn held(&self, num: Num) -> &[u8]
        ensures { result.now ≡ (pipe_of self.now num).held }
    {
        match self.pipes.get(num) {
            Some(pipe) => pipe.held.as_slice(),
            None => &[],
        }
    }

    fn is_pipe_shut(&self, num: Num) -> bool
        ensures { result ≡ (pipe_of self.now num).shut }
    {
        match self.pipes.get(num) {
            Some(pipe) => pipe.shut,
            None => false,
        }
    }

    // The messages that wait for a side.
    fn waiting(&self, num: Num, side: u8) -> &[Chunk]
        ensures { result.now ≡ waiting (pair_of self.now num) side }
    {
        match self.pairs.get(num) {
            Some(pair) => pair.waiting(side),
            None => &[],
        }
    }

    fn is_pair_shut(&self, num: Num) -> bool
        ensures { result ≡ (pair_of self.now num).shut }
    {
        match self.pairs.get(num) {
            Some(pair) => pair.shut,
            None => false,
        }
    }
}

impl MachinePair {
    fn waiting(&self, side: u8) -> &[Chunk]
        ensures { result.now ≡ waiting self.now side }
    {
        if side == 0 {
            self.first.as_slice()
        } else {
            self.second.as_slice()
        }
    }
}
