ghost use Rattle.std.specs.Prelude.{◌≡◌, ◌<◌, ◌≤◌, ◌++◌, ℕ, length, IfOk, OnOk};
ghost use Rattle.xc_world.specs.World.{beginning};
ghost use Rattle.xc_world.specs.Sound.{IsSound};
ghost use Rattle.xc_data.specs.Limits.{KeepsLimits};
ghost use Rattle.xc_world.specs.Opening.{opening, bare_world, with_opened, opening_handles};

use super::file_body::FileBody;
use super::{MachinePair, MachinePipe, World};
use std::alloc::Global;
use xc_data::{Ident, IdentList, Items, NoMemory, Num, Opened, Outline, WordList};
use xc_maps::{NameMap, NumMap};

/// Another list of the same words.
pub(super) fn words_of(alloc: Global, words: &[u64]) -> Result<WordList, NoMemory>
    ensures { IfOk result (λ list. list ≡ words.now) }
{
    let mut list = Vec::new(alloc);
    list.extend_from_slice(words)?;
    Ok(Items::from_vec(list))
}

/// These names, and others after them.
pub(super) fn names_of(
    alloc: Global,
    front: &[Ident],
    back: &[Ident],
) -> Result<IdentList, NoMemory>
    ensures { IfOk result (λ list. list ≡ front.now ++ back.now) }
{
    let mut list = Vec::new(alloc);
    list.extend_from_slice(front)?;
    list.extend_from_slice(back)?;
    Ok(Items::from_vec(list))
}

impl World {
    // The script's words and blocks, its jobs started, and no object.
    fn bare(alloc: Global, script: &Outline) -> Result<World, NoMemory>
        ensures { IfOk result (λ world. world ≡ bare_world script.now) }
    {
        Ok(World {
            alloc,
            words: words_of(alloc, script.words.as_slice())?,
            names: NameMap::new(alloc),
            files: NumMap::new(alloc),
            pipes: NumMap::new(alloc),
            pairs: NumMap::new(alloc),
            started: names_of(alloc, script.jobs.as_slice(), &[])?,
            blocks: names_of(alloc, script.jobs.as_slice(), script.bodies.as_slice())?,
        })
    }

    fn open_line(&mut self, num: Num, opened: &Opened) -> Result<(), NoMemory>
        ensures { OnOk result (self.new ≡ with_opened self.old num opened.now) }
    {
        match opened {
            Opened::File { name, bytes } => {
                self.names.insert(*name, num)?;
                self.files
                    .insert(num, FileBody::of(self.alloc, bytes.share()?))
            }
            Opened::Pipe { bytes } => {
                let held = bytes.share()?;
                self.pipes.insert(num, MachinePipe { held, shut: false })
            }
            Opened::Pair => self.pairs.insert(num, MachinePair::empty(self.alloc)),
        }
    }

    fn opening(alloc: Global, script: &Outline) -> Result<World, NoMemory>
        requires { KeepsLimits script.now }
        ensures { IfOk result (λ world. world ≡ opening script.now) }
    {
        let mut world = World::bare(alloc, script)?;
        for (line, opened) in script.prologue.objects.as_slice().iter().enumerate() {
            let num = Num {
                tx: 0,
                k: line as u16,
            };
            world.open_line(num, opened)?;
        }
        Ok(world)
    }

    /// The world that a script opens with.
    pub fn of(alloc: Global, script: &Outline) -> Result<World, NoMemory>
        requires { KeepsLimits script.now }
        ensures value { IfOk result (λ world. world ≡ opening script.now) }
        ensures words { IfOk result (λ world. length world.words ≤ 4096) }
        ensures sound { IfOk result (λ world. (tx : ℕ) → 0 < tx → IsSound world (beginning (opening_handles script.now)) tx) }
    {
        let world = World::opening(alloc, script)?;
        Ok(world)
    }
}
