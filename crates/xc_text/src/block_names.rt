ghost use Rattle.std.specs.Prelude.{◌≡◌, ◌++◌, ◌∷◌, [], ◌+◌, false, length, OnOk, OnErr, None};
ghost use Rattle.std.specs.FinMap as map;
ghost use Rattle.xc_text.specs.Said.{no_blocks};
ghost use Rattle.xc_text.specs.Steps.{is_among};

use std::alloc::Global;
use std::marker::Model;
use xc_data::{Ident, IdentList, Items, NoMemory};
use xc_maps::IdentMap;

/// The names of blocks, those of jobs and those of bodies, in the order of their lines, and looked up by one index.
/// The name of the block under way is among them from its first line on.
#[derive(Drop)]
pub struct BlockNames {
    jobs: IdentList,
    bodies: IdentList,
    index: IdentMap<()>,
}

impl Model for BlockNames {
    ghost use Rattle.std.specs.Prelude.{◌++◌};
    ghost use Rattle.xc_text.specs.Said.{BlockNames as PlainBlockNames};
    ghost use Rattle.xc_text.specs.Views.{Indexes};

    ghost Value = { PlainBlockNames };

    ghost view = { λ a. record { jobs = a.jobs; bodies = a.bodies } };

    ghost invariant = { λ a. Indexes a.index (a.jobs ++ a.bodies) };
}

// A name that the index hasn't goes after these names and into the index.
fn add(index: &mut IdentMap<()>, names: &mut IdentList, name: Ident) -> Result<(), NoMemory>
    requires new { map.get index.old name ≡ None }
    ensures index { OnOk result (index.new ≡ map.insert index.old name tt) }
    ensures names { OnOk result (names.new ≡ names.old ++ name ∷ []) }
    ensures err { OnErr result ((index.new ≡ index.old) × (names.new ≡ names.old)) }
{
    index.insert(name, ())?;
    match names.push(name) {
        Ok(()) => Ok(()),
        Err(NoMemory) => {
            index.remove(name);
            Err(NoMemory)
        }
    }
}

impl BlockNames {
    /// No block yet. It takes no memory.
    pub fn new(alloc: Global) -> Self
        ensures { result ≡ no_blocks }
    {
        BlockNames {
            jobs: Items::new(alloc),
            bodies: Items::new(alloc),
            index: IdentMap::new(alloc),
        }
    }

    /// The number of blocks, jobs and bodies together.
    pub fn len(&self) -> usize
        ensures { result ≡ length self.now.jobs + length self.now.bodies }
    {
        self.jobs.as_slice().len() + self.bodies.as_slice().len()
    }

    /// A block has the name.
    pub fn has(&self, name: Ident) -> bool
        ensures { result ≡ is_among name (self.now.jobs ++ self.now.bodies) }
    {
        self.index.get(name).is_some()
    }

    /// Adds the name of a job, which no block has.
    pub fn push_job(&mut self, name: Ident) -> Result<(), NoMemory>
        requires new { is_among name (self.old.jobs ++ self.old.bodies) ≡ false }
        ensures ok { OnOk result (self.new ≡ record self.old { jobs = self.old.jobs ++ name ∷ [] }) }
        ensures err { OnErr result (self.new ≡ self.old) }
    {
        add(&mut self.index, &mut self.jobs, name)?;
        Ok(())
    }

    /// Adds the name of a body, which no block has.
    pub fn push_body(&mut self, name: Ident) -> Result<(), NoMemory>
        requires new { is_among name (self.old.jobs ++ self.old.bodies) ≡ false }
        ensures ok { OnOk result (self.new ≡ record self.old { bodies = self.old.bodies ++ name ∷ [] }) }
        ensures err { OnErr result (self.new ≡ self.old) }
    {
        add(&mut self.index, &mut self.bodies, name)?;
        Ok(())
    }

    /// The names of the jobs, and those of the bodies. It takes no memory.
    pub fn into_lists(self) -> (IdentList, IdentList)
        ensures jobs { result.0 ≡ self.jobs }
        ensures bodies { result.1 ≡ self.bodies }
    {
        (self.jobs, self.bodies)
    }
}
