ghost use Rattle.std.specs.Prelude.{◌≡◌, ◌+◌, ◌++◌, ◌≤◌, [], length, take, drop, IfOk, OnOk, OnErr};
ghost use Rattle.xc_world.specs.Act.Files.{overwritten};

use std::alloc::Global;
use std::marker::Model;
use xc_data::NoMemory;

/// A file's bytes.
#[derive(Drop)]
pub(crate) struct FileBody {
    bytes: Vec<u8>,
}

impl Model for FileBody {
    ghost use Rattle.std.specs.Prelude.{ℕ, ◌≤◌, List, length};

    ghost Value = { List ℕ };

    ghost view = { λ a. a.bytes.items };

    ghost invariant = { λ a. length a.bytes.items ≤ 65536 };
}

// Writes the bytes over those from `at`.
fn write_over(file: &mut [u8], at: usize, bytes: &[u8])
    requires { at + length bytes.now ≤ length file.old }
    ensures { file.new ≡ overwritten at bytes.now file.old }
{
    file[at..at + bytes.len()].copy_from_slice(bytes);
}

// The n bytes from `at`, or as many as are there.
fn front(bytes: &[u8], at: usize, n: usize) -> &[u8]
    ensures { result.now ≡ take n (drop at bytes.now) }
{
    if at >= bytes.len() {
        return &[];
    }
    let rest = &bytes[at..];
    &rest[..n.min(rest.len())]
}

impl FileBody {
    pub(crate) fn empty(alloc: Global) -> FileBody
        ensures { result ≡ [] }
    {
        FileBody {
            bytes: Vec::new(alloc),
        }
    }

    // Bytes of its own.
    pub(crate) fn of(alloc: Global, bytes: &[u8]) -> Result<FileBody, NoMemory>
        requires { length bytes.now ≤ 65536 }
        ensures { IfOk result (λ file. file ≡ bytes.now) }
    {
        let mut held = Vec::new(alloc);
        held.extend_from_slice(bytes)?;
        Ok(FileBody { bytes: held })
    }

    pub(crate) fn len(&self) -> u32
        ensures { result ≡ length self.now }
    {
        self.bytes.len() as u32
    }

    pub(crate) fn as_slice(&self) -> &[u8]
        ensures { result.now ≡ self.now }
    {
        self.bytes.as_slice()
    }

    pub(crate) fn front(&self, at: u32, n: u32) -> &[u8]
        ensures { result.now ≡ take n (drop at self.now) }
    {
        front(self.bytes.as_slice(), at as usize, n as usize)
    }

    // In place, without memory.
    pub(crate) fn overwrite(&mut self, at: u32, bytes: &[u8])
        requires { at + length bytes.now ≤ length self.old }
        ensures { self.new ≡ overwritten at bytes.now self.old }
    {
        write_over(self.bytes.as_mut_slice(), at as usize, bytes);
    }

    // A file that grows step by step takes time by its bytes: its room grows by a factor.
    pub(crate) fn append(&mut self, bytes: &[u8]) -> Result<(), NoMemory>
        requires { length self.old + length bytes.now ≤ 65536 }
        ensures ok { OnOk result (self.new ≡ self.old ++ bytes.now) }
        ensures err { OnErr result (self.new ≡ self.old) }
    {
        Ok(self.bytes.extend_from_slice(bytes)?)
    }

    // In place, without memory.
    pub(crate) fn cut(&mut self, len: u32)
        ensures { self.new ≡ take len self.old }
    {
        self.bytes.truncate(len as usize);
    }
}
