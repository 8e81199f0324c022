use super::{Folder, path};
use crate::disk::{Disk, Seen};
use crate::errors::{or_fault, or_host_fault};
use xc_data::{Name, Num};
use xc_host::{Fault, HostErr};

impl<D: Disk + Drop> Folder<D> {
    pub(crate) fn lookup(&mut self, name: &Name) -> Result<Option<Num>, HostErr> {
        self.fresh = None;
        if let Some(num) = self.files.named(name) {
            return Ok(Some(num));
        }
        match or_host_fault(self.look(name))? {
            Some(there) => Ok(Some(self.find(name, &there)?)),
            None => Ok(None),
        }
    }

    // Holds a file that was there before, and gives it the next number. Another name of a file that is held is a fault: the
    // file would have two numbers.
    fn find(&mut self, name: &Name, there: &Seen) -> Result<Num, HostErr> {
        if self.found == u16::MAX || self.files.has(there.inode) {
            return Err(HostErr::Fault);
        }
        let num = Num {
            tx: 0,
            k: self.found,
        };
        self.files.enter(name, num)?;
        match self.open(name, there) {
            Ok(opened) => {
                self.files.add(name, num, opened);
                self.found += 1;
                self.fresh = Some(num);
                Ok(num)
            }
            Err(Fault) => {
                self.files.leave(name);
                Err(HostErr::Fault)
            }
        }
    }

    pub(crate) fn create(&mut self, name: &Name, num: Num) -> Result<(), HostErr> {
        if self.files.named(name).is_some() {
            return Err(HostErr::Fault);
        }
        self.files.enter(name, num)?;
        match self.make(name) {
            Ok(opened) => {
                self.files.add(name, num, opened);
                Ok(())
            }
            Err(Fault) => {
                self.files.leave(name);
                Err(HostErr::Fault)
            }
        }
    }

    // The new name is made first, as a link to the file: that refuses a name that is there. If the old
    // one stays, the new one goes again.
    pub(crate) fn rename(&mut self, from: &Name, to: &Name) -> Result<(), Fault> {
        self.held(from)?;
        let (old, new) = (path(from)?, path(to)?);
        or_fault(self.disk.link(old, new))?;
        if self.disk.unlink(old).is_err() {
            or_fault(self.disk.unlink(new))?;
            return Err(Fault);
        }
        self.files.rename(from, to);
        Ok(())
    }

    // The file stays open for who has it open. If the look-up for this very call found it, nobody has.
    pub(crate) fn unlink(&mut self, name: &Name) -> Result<(), Fault> {
        let num = self.held(name)?;
        or_fault(self.disk.unlink(path(name)?))?;
        if self.fresh == Some(num) {
            self.close(num);
        } else {
            self.files.unname(name);
        }
        Ok(())
    }

    pub(crate) fn uncreate(&mut self, name: &Name, num: Num) -> Result<(), Fault> {
        if self.held(name)? != num {
            return Err(Fault);
        }
        or_fault(self.disk.unlink(path(name)?))?;
        self.close(num);
        Ok(())
    }
}
