ghost use Rattle.std.specs.Io.{WritesAtMost};

mod of_runtime;

pub use of_runtime::OfRuntime;
use std::alloc::Global;
use std::fs::TryLockError;
use std::io;
use std::io::{Read, Write};
use std::os::unix::fs::FileExt;
use std::os::unix::net::UnixStream;

/// Which file of the system one is: its device, as `MetadataExt::dev` has it, and its number there.
#[derive(Clone, Copy, PartialEq, Eq, Hash)]
pub struct Inode {
    pub dev: u64,
    pub ino: u64,
}

/// What the system says of a file.
#[derive(Clone, Copy)]
pub struct Seen {
    pub inode: Inode,
    // Whether it is a regular file.
    pub is_file: bool,
    pub len: u64,
}

/// What a file is opened for.
#[derive(Clone, Copy)]
pub enum Access {
    Read,
    // Reading and writing. What the file holds stays.
    Update,
    // Writing, each time behind the file's last byte.
    Append,
    // Reading and writing. A name that is there is an error, be it a link.
    New,
}

/// An open file. Dropping it closes it, and gives its lock back.
pub trait DiskFile: FileExt + Drop {
    fn seen(&self) -> io::Result<Seen>;

    /// Writes a front of the bytes. Where the file was opened for appending they are its last ones.
    fn append(&self, bytes: &[u8]) -> io::Result<usize>
        ensures bound { WritesAtMost result bytes.now };

    fn cut(&self, len: u64) -> io::Result<()>;

    /// What was written reaches the disk.
    fn sync(&self) -> io::Result<()>;

    /// Takes the file's advisory lock, and never waits. Several may share one.
    fn lock(&self, is_shared: bool) -> Result<(), TryLockError>;
}

/// What a host on the system asks of it. A path is relative to the current folder.
pub trait Disk {
    type File: DiskFile;

    type Reader: Read + Drop;

    type Writer: Write + Drop;

    fn alloc(&self) -> Global;

    /// What is there under a path, where a link isn't followed. `NotFound` says that nothing is.
    fn look(&self, path: &str) -> io::Result<Seen>;

    fn open(&self, path: &str, access: Access) -> io::Result<Self::File>;

    /// Gives a file a second name. One that is there is an error.
    fn link(&self, from: &str, to: &str) -> io::Result<()>;

    fn unlink(&self, path: &str) -> io::Result<()>;

    fn pipe(&self) -> io::Result<(Self::Reader, Self::Writer)>;

    /// Two sockets, each the other's peer.
    fn pair(&self) -> io::Result<(UnixStream, UnixStream)>;
}
