use super::{Folder, Tail, path};
use crate::disk::{Access, Disk, DiskFile, Seen};
use crate::errors::or_fault;
use crate::held::{HeldFile, OpenFile};
use std::fs::TryLockError;
use std::io;
use std::io::ErrorKind;
use xc_data::{Name, Num};
use xc_host::Fault;

// Whether an error says that a file may not be written. It may still be read.
fn refuses_writing(error: &io::Error) -> bool {
    match error.kind() {
        ErrorKind::PermissionDenied
        | ErrorKind::ReadOnlyFilesystem
        | ErrorKind::ExecutableFileBusy => true,
        _ => false,
    }
}

impl<D: Disk + Drop> Folder<D> {
    // Opens a regular file that is there, for reading and writing, or for reading alone if it may not be written. A fault where
    // another process has its lock. What took the file's place since is opened and closed again, and nothing is read or written
    // through it.
    pub(super) fn open(&self, name: &Name, there: &Seen) -> Result<OpenFile<D::File>, Fault> {
        if !there.is_file {
            return Err(Fault);
        }
        let path = path(name)?;
        let (file, is_writable) = match self.disk.open(path, Access::Update) {
            Ok(file) => (file, true),
            Err(error) if refuses_writing(&error) => {
                (or_fault(self.disk.open(path, Access::Read))?, false)
            }
            Err(_) => return Err(Fault),
        };
        // Of a file that may only be read, others that only read it may have the lock too.
        file.lock(!is_writable).map_err(|_| Fault)?;
        self.hold(name, file, is_writable)
    }

    // Makes a file. What is there already isn't opened, whether a link or anything else.
    pub(super) fn make(&self, name: &Name) -> Result<OpenFile<D::File>, Fault> {
        let path = path(name)?;
        let file = or_fault(self.disk.open(path, Access::New))?;
        match file.lock(false) {
            Ok(()) => self.hold(name, file, true),
            // Another process has found it by now, and keeps it.
            Err(TryLockError::WouldBlock) => Err(Fault),
            Err(TryLockError::Error(_)) => {
                or_fault(self.disk.unlink(path))?;
                Err(Fault)
            }
        }
    }

    // An open file whose lock was taken, if the name still is that file: who had the lock before may have taken it away.
    fn hold(
        &self,
        name: &Name,
        file: D::File,
        is_writable: bool,
    ) -> Result<OpenFile<D::File>, Fault> {
        let inode = or_fault(file.seen())?.inode;
        self.check(name, inode)?;
        Ok(OpenFile {
            inode,
            file,
            is_writable,
        })
    }

    // A file opened for appending too, if its name still is that file.
    pub(super) fn open_tail(
        &self,
        num: Num,
        entry: &HeldFile<D::File>,
    ) -> Result<Tail<D::File>, Fault> {
        let name = entry.name.as_ref().ok_or(Fault)?;
        self.check(name, entry.opened.inode)?;
        let file = or_fault(self.disk.open(path(name)?, Access::Append))?;
        if or_fault(file.seen())?.inode != entry.opened.inode {
            return Err(Fault);
        }
        Ok(Tail { num, file })
    }
}
