ghost use Rattle.std.specs.FinMap as map;
ghost use Rattle.std.specs.Prelude.{◌≡◌, ◌+◌, ◌<◌, ◌^◌, take, drop, OnOk};
ghost use Rattle.xc_world.specs.Act.Files.{overwritten};
ghost use Rattle.xc_world.specs.Act.Names.{with_new_file};
ghost use Rattle.xc_world.specs.Trail.{with_effect, move_name};
ghost use Rattle.xc_world.specs.World.{file_of, with_file, with_pipe, empty_pipe};

use super::file_body::FileBody;
use super::parts::{behind, front};
use super::{MachinePair, MachinePipe, World};
use xc_data::{Chunk, Name, NoMemory, Num, Undo};

// The covered bytes of a record from this one on.
fn covered(after: &Chunk, from: u32, n: u32) -> &[u8]
    ensures { result.now ≡ drop from (take n after.now) }
{
    behind(front(after.as_slice(), n as usize), from as usize)
}

impl World {
    // These bytes replace those of a file from `at` on.
    fn put_from(&mut self, num: Num, at: usize, bytes: &[u8]) -> Result<(), NoMemory>
        requires { at < 2 ^ 34 }
        ensures { OnOk result (self.new ≡ with_file self.old num (overwritten at bytes.now (file_of self.old num))) }
    {
        let whole = self.file(num)?;
        let file = whole.as_slice();
        let mut next = Vec::new(self.alloc);
        next.extend_from_slice(front(file, at))?;
        next.extend_from_slice(bytes)?;
        next.extend_from_slice(behind(file, at + bytes.len()))?;
        let body = FileBody::of(self.alloc, Chunk::from_vec(next)?);
        self.files.insert(num, body)
    }

    // An empty file of this number under this name.
    fn add_named(&mut self, name: Name, num: Num) -> Result<(), NoMemory>
        ensures { OnOk result (self.new ≡ with_new_file self.old name num) }
    {
        self.files.insert(num, FileBody::empty(self.alloc))?;
        self.names.insert(name, num)
    }

    // The file of a name goes to another one.
    fn give_name(&mut self, from: Name, to: Name) -> Result<(), NoMemory>
        ensures { OnOk result (self.new ≡ move_name self.old from to (map.get self.old.names from)) }
    {
        let Some(num) = self.names.get(from) else {
            return Ok(());
        };
        let num = *num;
        self.names.remove(from);
        self.names.insert(to, num)
    }

    fn add_pipe(&mut self, num: Num) -> Result<(), NoMemory>
        ensures { OnOk result (self.new ≡ with_pipe self.old num empty_pipe) }
    {
        let held = Chunk::new(self.alloc, &[])?;
        self.pipes.insert(num, MachinePipe { held, shut: false })
    }

    /// Puts into the world what a record tells of, of its covered bytes from this one on.
    pub fn put_effect(&mut self, undo: &Undo, from: u32) -> Result<(), NoMemory>
        ensures { OnOk result (self.new ≡ with_effect self.old undo.now from) }
    {
        match undo {
            Undo::Overwrite {
                file,
                at,
                after,
                n,
                ..
            } => self.put_from(
                *file,
                *at as usize + from as usize,
                covered(after, from, *n),
            ),
            Undo::Append { file, after, n, .. } => {
                self.put_behind(*file, covered(after, from, *n))
            }
            Undo::Create { name, num } => self.add_named(*name.value(), *num),
            Undo::Rename { from, to } => self.give_name(*from.value(), *to.value()),
            Undo::NewPipe(num) => self.add_pipe(*num),
            Undo::NewPair(num) => self.pairs.insert(*num, MachinePair::empty(self.alloc)),
        }
    }
}
