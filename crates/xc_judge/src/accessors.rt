//! What is read of a journal behind its last entry.

ghost use Rattle.std.specs.Prelude.{◌≡◌, length};

use crate::{Progress, Standing};
use xc_data::Ident;
use xc_machine::World;

impl Progress {
    /// The started jobs, in the order of their numbers.
    pub fn jobs(&self) -> &[Standing]
        ensures { result.now ≡ self.now.jobs }
    {
        self.jobs.as_slice()
    }

    /// The plain machine's world.
    pub fn into_world(self) -> World
        ensures { result ≡ self.state.world }
    {
        let Progress {
            world,
            handles: _handles,
            jobs: _jobs,
            entered: _entered,
        } = self;
        world
    }
}

impl Standing {
    /// The name of its block.
    pub fn block(&self) -> Ident
        ensures { result ≡ self.now.block }
    {
        self.block
    }

    /// How many attempts at its next transaction ended that are to be tried again.
    pub fn failures(&self) -> usize
        ensures { result ≡ length self.now.failed }
    {
        self.failed.len()
    }

    /// Whether its last entry was aborted for lack of memory.
    pub fn is_starved(&self) -> bool
        ensures { result ≡ self.now.starved }
    {
        self.starved
    }
}
