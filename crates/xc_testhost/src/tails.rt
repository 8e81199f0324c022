use std::alloc::Global;
use xc_data::{NoMemory, Num};

/// What stands after the opening bytes of files.
#[derive(Drop)]
pub(crate) struct Tails {
    alloc: Global,
    tails: Vec<(Num, Vec<u8>)>,
}

impl Tails {
    pub(crate) fn new(alloc: Global) -> Tails {
        Tails {
            alloc,
            tails: Vec::new(alloc),
        }
    }

    pub(crate) fn of(&self, file: Num) -> &[u8] {
        for tail in &self.tails {
            if tail.0 == file {
                return tail.1.as_slice();
            }
        }
        &[]
    }

    pub(crate) fn append(&mut self, file: Num, bytes: &[u8]) -> Result<(), NoMemory> {
        for tail in self.tails.iter_mut() {
            if tail.0 == file {
                return Ok(tail.1.extend_from_slice(bytes)?);
            }
        }
        let mut copy = Vec::new(self.alloc);
        copy.extend_from_slice(bytes)?;
        Ok(self.tails.push((file, copy))?)
    }

    // Writes over the bytes from a place on.
    pub(crate) fn put(&mut self, file: Num, at: usize, bytes: &[u8]) {
        for tail in self.tails.iter_mut() {
            if tail.0 == file {
                put(tail.1.as_mut_slice(), at, bytes);
            }
        }
    }

    pub(crate) fn cut(&mut self, file: Num, len: usize) {
        for tail in self.tails.iter_mut() {
            if tail.0 == file {
                tail.1.truncate(len);
            }
        }
    }

    pub(crate) fn remove(&mut self, file: Num) {
        self.tails.retain(|tail| tail.0 != file);
    }
}

// Writes new bytes over those from a place on.
pub(crate) fn put(bytes: &mut [u8], at: usize, new: &[u8]) {
    for (place, byte) in bytes.iter_mut().skip(at).zip(new) {
        *place = *byte;
    }
}
