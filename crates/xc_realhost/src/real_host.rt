ghost use Rattle.std.specs.Prelude.{◌≡◌};
ghost use Rattle.std.specs.FinMap as map;
ghost use Rattle.std.specs.HashMap as table;
ghost use Rattle.std.specs.HashSet as set;
ghost use Rattle.xc_host.specs.Counting.{no_calls};

mod host;

use crate::channels::Channels;
use crate::counts::Counts;
use crate::disk::{Disk, OfRuntime};
use crate::folder::Folder;
use std::fs::File;
use std::net::Net;
use std::rt::Files;

/// A host on the system: regular files of the current folder, pipes, and pairs of sockets. It tells nothing, and takes no script.
///
/// A file that was there before gets the number 0.k at its first lookup, with k from 0 to 65,534. Each
/// error of the system is a fault, whatever its cause.
#[derive(Drop)]
pub struct RealHost<D: Disk + Drop> {
    folder: Folder<D>,
    channels: Channels<D>,
    counts: Counts,
}

impl<R: Files<File = File> + Net + AllocGlobal + Drop> RealHost<OfRuntime<R>> {
    /// The host of a program, over its runtime. It holds nothing open. It takes no memory, and makes no call of the system.
    pub fn new(rt: R) -> RealHost<OfRuntime<R>> {
        RealHost::over(OfRuntime::new(rt))
    }
}

impl<D: Disk + Drop> RealHost<D> {
    /// The host over a disk of its own. It holds nothing open. It takes no memory, and makes no call of the system.
    pub fn over(disk: D) -> RealHost<D> {
        let alloc = disk.alloc();
        RealHost {
            folder: Folder::new(disk, alloc),
            channels: Channels::new(alloc),
            counts: Counts::none(),
        }
    }

    // Nothing is held open any more. The calls are counted anew, and the faults on.
    fn begin_anew(&mut self)
        ensures files { table.IsEmpty self.new.folder.files.files.rows }
        ensures names { self.new.folder.files.names ≡ map.empty }
        ensures inodes { set.IsEmpty self.new.folder.files.inodes }
        ensures found { self.new.folder.found ≡ 0 }
        ensures pipes { table.IsEmpty self.new.channels.pipes.rows }
        ensures pairs { table.IsEmpty self.new.channels.pairs.rows }
        ensures calls { self.new.counts.calls ≡ no_calls }
        ensures faults { self.new.counts.faults ≡ self.old.counts.faults }
    {
        self.folder.begin_anew();
        self.channels.begin_anew();
        self.counts.begin_anew();
    }
}
