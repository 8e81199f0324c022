ghost use Rattle.std.specs.Io.{WritesAtMost};

use super::{Access, Disk, DiskFile, Inode, Seen};
use std::alloc::Global;
use std::fs::{File, Metadata, OpenOptions, TryLockError};
use std::io::{PipeReader, PipeWriter, Write};
use std::net::Net;
use std::os::unix::fs::MetadataExt;
use std::os::unix::net::UnixStream;
use std::rt::Files;
use std::{fs, io};

/// The files, the pipes and the sockets that the runtime of a program gives.
#[derive(Drop)]
pub struct OfRuntime<R: Files<File = File> + Net + AllocGlobal + Drop> {
    rt: R,
}

impl<R: Files<File = File> + Net + AllocGlobal + Drop> OfRuntime<R> {
    pub(crate) fn new(rt: R) -> OfRuntime<R> {
        OfRuntime { rt }
    }
}

// What the metadata of a file say.
fn seen(there: &Metadata) -> Seen {
    Seen {
        inode: Inode {
            dev: there.dev(),
            ino: there.ino(),
        },
        is_file: there.is_file(),
        len: there.len(),
    }
}

// How a file is opened for this.
fn options(access: Access) -> OpenOptions {
    let mut options = OpenOptions::new();
    match access {
        Access::Read => {
            options.read(true);
        }
        Access::Update => {
            options.read(true).write(true);
        }
        Access::Append => {
            options.append(true);
        }
        Access::New => {
            options.read(true).write(true).create_new(true);
        }
    }
    options
}

impl DiskFile for File {
    fn seen(&self) -> io::Result<Seen> {
        Ok(seen(&self.metadata()?))
    }

    fn append(&self, bytes: &[u8]) -> io::Result<usize>
        ensures bound { WritesAtMost result bytes.now }
    {
        let mut file = self;
        file.write(bytes)
    }

    fn cut(&self, len: u64) -> io::Result<()> {
        self.set_len(len)
    }

    fn sync(&self) -> io::Result<()> {
        self.sync_all()
    }

    fn lock(&self, is_shared: bool) -> Result<(), TryLockError> {
        if is_shared {
            self.try_lock_shared()
        } else {
            self.try_lock()
        }
    }
}

impl<R: Files<File = File> + Net + AllocGlobal + Drop> Disk for OfRuntime<R> {
    type File = File;

    type Reader = PipeReader;

    type Writer = PipeWriter;

    fn alloc(&self) -> Global {
        self.rt.alloc()
    }

    fn look(&self, path: &str) -> io::Result<Seen> {
        Ok(seen(&fs::symlink_metadata(&self.rt, path)?))
    }

    fn open(&self, path: &str, access: Access) -> io::Result<File> {
        options(access).open(&self.rt, path)
    }

    fn link(&self, from: &str, to: &str) -> io::Result<()> {
        fs::hard_link(&self.rt, from, to)
    }

    fn unlink(&self, path: &str) -> io::Result<()> {
        fs::remove_file(&self.rt, path)
    }

    fn pipe(&self) -> io::Result<(PipeReader, PipeWriter)> {
        io::pipe(&self.rt)
    }

    fn pair(&self) -> io::Result<(UnixStream, UnixStream)> {
        UnixStream::pair(&self.rt)
    }
}
