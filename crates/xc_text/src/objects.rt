ghost use Rattle.std.specs.Prelude.{◌≡◌, ◌++◌, ◌∷◌, [], true, false, length, OnOk, OnErr};
ghost use Rattle.std.specs.List.{list_any};
ghost use Rattle.xc_data.specs.declared.script.Opened.TheVariants.{File, Pipe, Pair};
ghost use Rattle.xc_text.specs.Steps.{has_room_for_pipe, has_room_for_pair, is_file_of};

use crate::limits::{MOST_OBJECTS, MOST_PAIRS, MOST_PIPES};
use std::alloc::Global;
use std::marker::Model;
use xc_data::{Chunk, Items, Name, NoMemory, Opened, OpenedList};
use xc_maps::NameMap;

/// The objects of a prologue in the order of their lines. Files are found by their names, and pipes and pairs are counted.
#[derive(Drop)]
pub struct Objects {
    objects: OpenedList,
    names: NameMap<()>,
    pipes: u32,
    pairs: u32,
}

impl Model for Objects {
    ghost use Rattle.std.specs.Prelude.{◌≡◌, List, count_by};
    ghost use Rattle.xc_data.specs.declared.script.Opened.{Opened};
    ghost use Rattle.xc_data.specs.Limits.{is_pipe_line, is_pair_line};
    ghost use Rattle.xc_text.specs.Views.{NamesFiles};

    ghost Value = { List Opened };

    ghost view = { λ a. a.objects };

    ghost invariant = { λ a. NamesFiles a.names a.objects
        × (a.pipes ≡ count_by is_pipe_line a.objects) × (a.pairs ≡ count_by is_pair_line a.objects) };
}

impl Objects {
    /// No object yet. It takes no memory.
    pub fn new(alloc: Global) -> Self
        ensures { result ≡ [] }
    {
        Objects {
            objects: Items::new(alloc),
            names: NameMap::new(alloc),
            pipes: 0,
            pairs: 0,
        }
    }

    /// The number of `file`, `pipe` and `pair` lines.
    pub fn len(&self) -> usize
        ensures { result ≡ length self.now }
    {
        self.objects.len()
    }

    /// A file among them has the name.
    pub fn has(&self, name: Name) -> bool
        ensures { result ≡ list_any (is_file_of name) self.now }
    {
        self.names.get(name).is_some()
    }

    /// A prologue may have a pipe more.
    pub fn has_room_for_pipe(&self) -> bool
        ensures { result ≡ has_room_for_pipe self.now }
    {
        self.objects.len() < MOST_OBJECTS && self.pipes < MOST_PIPES
    }

    /// A prologue may have a pair more.
    pub fn has_room_for_pair(&self) -> bool
        ensures { result ≡ has_room_for_pair self.now }
    {
        self.objects.len() < MOST_OBJECTS && self.pairs < MOST_PAIRS
    }

    /// Adds a file of a name that none of them has.
    pub fn push_file(&mut self, name: Name, bytes: Chunk) -> Result<(), NoMemory>
        requires new { list_any (is_file_of name) self.old ≡ false }
        ensures ok { OnOk result (self.new ≡ self.old ++ File name bytes ∷ []) }
        ensures err { OnErr result (self.new ≡ self.old) }
    {
        self.names.insert(name, ())?;
        match self.objects.push(Opened::File { name, bytes }) {
            Ok(()) => Ok(()),
            Err(NoMemory) => {
                self.names.remove(name);
                Err(NoMemory)
            }
        }
    }

    /// One pipe more, with these bytes.
    pub fn push_pipe(&mut self, bytes: Chunk) -> Result<(), NoMemory>
        requires room { has_room_for_pipe self.old ≡ true }
        ensures ok { OnOk result (self.new ≡ self.old ++ Pipe bytes ∷ []) }
        ensures err { OnErr result (self.new ≡ self.old) }
    {
        self.objects.push(Opened::Pipe { bytes })?;
        self.pipes += 1;
        Ok(())
    }

    /// One pair more, in which no message waits.
    pub fn push_pair(&mut self) -> Result<(), NoMemory>
        requires room { has_room_for_pair self.old ≡ true }
        ensures ok { OnOk result (self.new ≡ self.old ++ Pair ∷ []) }
        ensures err { OnErr result (self.new ≡ self.old) }
    {
        self.objects.push(Opened::Pair)?;
        self.pairs += 1;
        Ok(())
    }

    /// The objects, in the order of their lines. It takes no memory.
    pub fn into_objects(self) -> OpenedList
        ensures { result ≡ self }
    {
        self.objects
    }
}
