ghost use Rattle.std.specs.Prelude.{◌≡◌};
ghost use Rattle.std.specs.FinMap as map;
ghost use Rattle.std.specs.HashMap as table;
ghost use Rattle.std.specs.HashSet as set;

mod bytes;
mod names;
mod opening;

use crate::disk::{Disk, DiskFile, Inode, Seen};
use crate::held::Held;
use std::alloc::Global;
use std::io::ErrorKind;
use std::str;
use xc_data::{Name, Num};
use xc_host::Fault;

/// The file of the last append, opened for appending too.
#[derive(Drop)]
struct Tail<F: DiskFile> {
    num: Num,
    file: F,
}

/// The regular files of the current folder, held open from their first use.
#[derive(Drop)]
pub(crate) struct Folder<D: Disk + Drop> {
    disk: D,
    alloc: Global,
    files: Held<D::File>,
    // How many files were found that were there before: the `k` of the next one's number.
    found: u16,
    // The file that the last look-up found, if no call has named its number yet. So nobody but who looked it up can
    // have it open.
    fresh: Option<Num>,
    tail: Option<Tail<D::File>>,
}

// A name as a path. It has no slash, and is neither `.` nor `..`, so it stays in the folder.
fn path(name: &Name) -> Result<&str, Fault> {
    str::from_utf8(name.as_slice()).map_err(|_| Fault)
}

impl<D: Disk + Drop> Folder<D> {
    pub(crate) fn new(disk: D, alloc: Global) -> Folder<D> {
        Folder {
            disk,
            alloc,
            files: Held::new(alloc),
            found: 0,
            fresh: None,
            tail: None,
        }
    }

    // No file is held any more, and the next one that is found gets the first number.
    pub(crate) fn begin_anew(&mut self)
        ensures files { table.IsEmpty self.new.files.files.rows }
        ensures names { self.new.files.names ≡ map.empty }
        ensures inodes { set.IsEmpty self.new.files.inodes }
        ensures found { self.new.found ≡ 0 }
    {
        self.files = Held::new(self.alloc);
        self.found = 0;
        self.fresh = None;
        self.tail = None;
    }

    pub(crate) fn disk(&self) -> &D {
        &self.disk
    }

    fn file(&mut self, num: Num) -> Result<&D::File, Fault> {
        self.fresh = None;
        let entry = self.files.get(num).ok_or(Fault)?;
        Ok(&entry.opened.file)
    }

    // Whether a file is the one of the last append, which is open for appending.
    fn has_tail(&self, num: Num) -> bool {
        match &self.tail {
            Some(tail) => tail.num == num,
            None => false,
        }
    }

    // Closes a file. Its lock goes with it.
    fn close(&mut self, num: Num) {
        self.files.remove(num);
        if self.has_tail(num) {
            self.tail = None;
        }
    }

    // What is in the folder under a name, if anything is. A link isn't followed.
    fn look(&self, name: &Name) -> Result<Option<Seen>, Fault> {
        match self.disk.look(path(name)?) {
            Ok(there) => Ok(Some(there)),
            Err(error) if error.kind() == ErrorKind::NotFound => Ok(None),
            Err(_) => Err(Fault),
        }
    }

    // A fault, unless a name is this file.
    fn check(&self, name: &Name, inode: Inode) -> Result<(), Fault> {
        match self.look(name)? {
            Some(there) if there.is_file && there.inode == inode => Ok(()),
            Some(_) | None => Err(Fault),
        }
    }

    // The number of the file that is held under a name, if the name still is that file.
    fn held(&self, name: &Name) -> Result<Num, Fault> {
        let num = self.files.named(name).ok_or(Fault)?;
        let entry = self.files.get(num).ok_or(Fault)?;
        self.check(name, entry.opened.inode)?;
        Ok(num)
    }
}
