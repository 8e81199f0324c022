ghost use Rattle.std.specs.Prelude.{◌≡◌, ◌<◌, OnOk};
ghost use Rattle.std.specs.FinMap as map;
ghost use Rattle.std.specs.HashMap as table;
ghost use Rattle.std.specs.HashSet as set;

use crate::disk::{DiskFile, Inode};
use crate::table::Table;
use std::alloc::Global;
use std::collections::HashSet;
use xc_data::{Name, NoMemory, Num};
use xc_maps::NameMap;

/// An open file, with its lock.
#[derive(Drop)]
pub(crate) struct OpenFile<F: DiskFile> {
    pub(crate) inode: Inode,
    pub(crate) file: F,
    // Else it is open for reading alone.
    pub(crate) is_writable: bool,
}

/// A file that is held open, with its name in the folder, if it has one.
#[derive(Drop)]
pub(crate) struct HeldFile<F: DiskFile> {
    pub(crate) name: Option<Name>,
    pub(crate) opened: OpenFile<F>,
}

/// The files that are held open, and the numbers of their names. No two of them are one file of the system.
#[derive(Drop)]
pub(crate) struct Held<F: DiskFile> {
    files: Table<HeldFile<F>>,
    names: NameMap<Num>,
    inodes: HashSet<Inode>,
}

impl<F: DiskFile> Held<F> {
    pub(crate) fn new(alloc: Global) -> Held<F>
        ensures files { table.IsEmpty result.files.rows }
        ensures names { result.names ≡ map.empty }
        ensures inodes { set.IsEmpty result.inodes }
    {
        Held {
            files: Table::new(alloc),
            names: NameMap::new(alloc),
            inodes: HashSet::new(alloc),
        }
    }

    pub(crate) fn named(&self, name: &Name) -> Option<Num>
        ensures { result ≡ map.get self.now.names name.now }
    {
        self.names.get(*name).copied()
    }

    pub(crate) fn get(&self, num: Num) -> Option<&HeldFile<F>> {
        self.files.get(num)
    }

    pub(crate) fn of(&mut self, num: Num) -> Option<&mut HeldFile<F>> {
        self.files.of(num)
    }

    // Whether a file of the system is held.
    pub(crate) fn has(&self, inode: Inode) -> bool {
        self.inodes.contains(&inode)
    }

    // Gives a name the number of a file that isn't held yet, and makes room for the file.
    pub(crate) fn enter(&mut self, name: &Name, num: Num) -> Result<(), NoMemory>
        ensures files { OnOk result (0 < table.spare self.new.files.rows) }
        ensures inodes { OnOk result (0 < set.spare self.new.inodes) }
    {
        self.files.reserve()?;
        self.inodes.reserve(1)?;
        self.names.settle();
        self.names.insert(*name, num)
    }

    // The name has no number any more.
    pub(crate) fn leave(&mut self, name: &Name) {
        self.names.remove(*name);
    }

    // Holds the file of a name that was entered, in the room that was made. This takes no memory.
    pub(crate) fn add(&mut self, name: &Name, num: Num, opened: OpenFile<F>)
        requires files { 0 < table.spare self.old.files.rows }
        requires inodes { 0 < set.spare self.old.inodes }
    {
        let noted = self.inodes.insert(opened.inode);
        prove!(noted.is_ok());
        let entry = HeldFile {
            name: Some(*name),
            opened,
        };
        self.files.add(num, entry);
    }

    // The file of a name, if it has one, has no name any more.
    pub(crate) fn unname(&mut self, name: &Name) {
        let Some(num) = self.names.remove(*name) else {
            return;
        };
        if let Some(entry) = self.files.of(num) {
            entry.name = None;
        }
    }

    // The file of a name takes another name. This takes no memory.
    pub(crate) fn rename(&mut self, from: &Name, to: &Name) {
        self.unname(to);
        let (Some(num), None) = (self.named(from), self.named(to)) else {
            return;
        };
        self.names.rename(*from, *to);
        if let Some(entry) = self.files.of(num) {
            entry.name = Some(*to);
        }
    }

    pub(crate) fn remove(&mut self, num: Num) {
        let Some(entry) = self.files.remove(num) else {
            return;
        };
        self.inodes.remove(&entry.opened.inode);
        if let Some(name) = entry.name {
            self.names.remove(name);
        }
    }
}
