ghost use Rattle.std.specs.Prelude.{◌≡◌, ◌<◌, ◌≤◌, length, IfOk, Ok};

use super::Folder;
use crate::disk::{Access, Disk, DiskFile};
use crate::errors::{or_fault, or_host_fault};
use std::io;
use std::os::unix::fs::FileExt;
use xc_data::{Chunk, Num};
use xc_host::{Fault, HostErr};

// The most bytes of one read.
const MOST: usize = 1024;

// How many of the bytes were written: none is a fault.
fn some_of(written: io::Result<usize>) -> Result<u32, Fault>
    ensures bound { IfOk result (λ n. (0 < n) × (written ≡ Ok n)) }
{
    match or_fault(written)? {
        0 => Err(Fault),
        n => u32::try_from(n).map_err(|_| Fault),
    }
}

// Writes a front of the bytes behind the file's last byte.
fn append_to<F: DiskFile>(tail: &F, bytes: &[u8]) -> Result<u32, Fault>
    requires some { 0 < length bytes.now }
    ensures bound { IfOk result (λ n. (0 < n) × (n ≤ length bytes.now)) }
{
    some_of(tail.append(bytes))
}

// Writes a front of the bytes from a place on.
fn write_from<F: DiskFile>(file: &F, at: u64, bytes: &[u8]) -> Result<u32, Fault>
    requires some { 0 < length bytes.now }
    ensures bound { IfOk result (λ n. (0 < n) × (n ≤ length bytes.now)) }
{
    some_of(file.write_at(bytes, at))
}

impl<D: Disk + Drop> Folder<D> {
    pub(crate) fn len(&mut self, file: Num) -> Result<u32, Fault> {
        let found = or_fault(self.file(file)?.seen())?;
        u32::try_from(found.len).map_err(|_| Fault)
    }

    pub(crate) fn read_at(&mut self, file: Num, at: u32, n: u32) -> Result<Chunk, HostErr>
        ensures bound { IfOk result (λ front. length front ≤ n) }
    {
        let alloc = self.alloc;
        let mut buffer = [0u8; MOST];
        let most = MOST.min(n as usize);
        let file = or_host_fault(self.file(file))?;
        let got = or_host_fault(or_fault(file.read_at(&mut buffer[..most], u64::from(at))))?;
        Ok(Chunk::new(alloc, &buffer[..got])?)
    }

    // No byte is written past the file's end.
    pub(crate) fn write_at(&mut self, file: Num, at: u32, bytes: &[u8]) -> Result<u32, Fault>
        requires some { 0 < length bytes.now }
        ensures bound { IfOk result (λ n. (0 < n) × (n ≤ length bytes.now)) }
    {
        let len = self.len(file)?;
        if at > len || bytes.len() > (len - at) as usize {
            return Err(Fault);
        }
        write_from(self.file(file)?, u64::from(at), bytes)
    }

    // The system finds the end if the file can be opened for appending, so that nothing is written over what another process
    // appended meanwhile. One that has no name any more, or for which there is no descriptor left, is written from its end on.
    pub(crate) fn append(&mut self, num: Num, bytes: &[u8]) -> Result<u32, Fault>
        requires some { 0 < length bytes.now }
        ensures bound { IfOk result (λ n. (0 < n) × (n ≤ length bytes.now)) }
    {
        self.find_tail(num)?;
        if let Some(tail) = &self.tail {
            return append_to(&tail.file, bytes);
        }
        let file = self.file(num)?;
        let end = or_fault(file.seen())?.len;
        write_from(file, end, bytes)
    }

    // Opens a file for appending too, if that can be done. The file of an append before it isn't open so any more. A fault
    // where the file may only be read.
    fn find_tail(&mut self, num: Num) -> Result<(), Fault> {
        self.fresh = None;
        if self.has_tail(num) {
            return Ok(());
        }
        self.tail = None;
        let entry = self.files.get(num).ok_or(Fault)?;
        if !entry.opened.is_writable {
            return Err(Fault);
        }
        self.tail = self.open_tail(num, entry).ok();
        Ok(())
    }

    // A file is never lengthened so.
    pub(crate) fn cut(&mut self, file: Num, len: u32) -> Result<(), Fault> {
        if len > self.len(file)? {
            return Err(Fault);
        }
        or_fault(self.file(file)?.cut(u64::from(len)))
    }

    // The file's bytes reach the disk, and then the names of the folder.
    pub(crate) fn sync(&mut self, file: Num) -> Result<(), Fault> {
        or_fault(self.file(file)?.sync())?;
        let folder = or_fault(self.disk.open(".", Access::Read))?;
        or_fault(folder.sync())
    }
}
