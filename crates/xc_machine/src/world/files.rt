ghost use Rattle.std.specs.FinMap as map;
ghost use Rattle.std.specs.Prelude.{◌≡◌, ◌≤◌, ◌<◌, ◌+◌, ◌++◌, ℕ, true, false, is_some, length, IfOk, OnOk, OnErr};
ghost use Rattle.xc_data.specs.declared.object.Num.{Num};
ghost use Rattle.xc_data.specs.declared.private.Place.TheVariants.{File};
ghost use Rattle.xc_data.specs.Private.{place_of, with_place};
ghost use Rattle.xc_world.specs.World.{file_of, with_file};
ghost use Rattle.xc_world.specs.Act.Step.{step_to};
ghost use Rattle.xc_world.specs.Act.Files.{read_at, overwrite_at, append_at, len_at, overwrite_short, append_short, overwritten};

use super::World;
use super::file_body::FileBody;
use super::shared::replaced;
use xc_data::{Chunk, MOST_FILE_BYTES, NoMemory, Num, Place, Private, Reply};

impl World {
    pub(super) fn read(&self, me: &mut Private, h: u16, n: u64) -> Result<Reply, NoMemory>
        requires most { n ≤ 1024 }
        requires files { (num : Num) → length (file_of self.now num) ≤ 65536 }
        ensures ok { IfOk result (λ reply. read_at self.now me.old h n (place_of me.old.places h) ≡ step_to self.now me.new reply) }
        ensures me { OnErr result (me.new ≡ me.old) }
    {
        let Place::File { num, at } = me.place(h) else {
            return Ok(Reply::BadHandle);
        };
        if n == 0 {
            return Ok(Reply::Got(Chunk::new(self.alloc, &[])?));
        }
        let Some(file) = self.files.get(num) else {
            return Ok(Reply::End);
        };
        if file.len() <= at as usize {
            return Ok(Reply::End);
        }
        let to = file.len().min(at as usize + n as usize);
        let bytes = file.part(self.alloc, at as usize, to)?;
        let at = at + bytes.len() as u32;
        me.set_place(h, Place::File { num, at });
        Ok(Reply::Got(bytes))
    }

    // These bytes are written over, and the position moves on.
    fn put(
        &mut self,
        me: &mut Private,
        h: u16,
        num: Num,
        at: u32,
        bytes: &[u8],
    ) -> Result<(), NoMemory>
        requires open { h < 256 }
        requires inside { at + length bytes.now ≤ length (file_of self.old num) }
        requires file { length (file_of self.old num) ≤ 65536 }
        ensures ok { OnOk result (self.new ≡ with_file self.old num (overwritten at bytes.now (file_of self.old num))) }
        ensures moved { OnOk result (me.new ≡ with_place me.old h (File num (at + length bytes.now))) }
        ensures world { OnErr result (self.new ≡ self.old) }
        ensures me { OnErr result (me.new ≡ me.old) }
    {
        let file = self.file(num)?;
        let next = replaced(self.alloc, file.as_slice(), at as usize, bytes)?;
        self.files.insert(num, FileBody::of(self.alloc, next))?;
        let at = at + bytes.len() as u32;
        me.set_place(h, Place::File { num, at });
        Ok(())
    }

    pub(super) fn overwrite(
        &mut self,
        me: &mut Private,
        h: u16,
        bytes: &Chunk,
    ) -> Result<Reply, NoMemory>
        requires files { (num : Num) → length (file_of self.old num) ≤ 65536 }
        ensures ok { IfOk result (λ reply.
            overwrite_at self.old me.old h bytes.now (place_of me.old.places h) ≡ step_to self.new me.new reply) }
        ensures world { OnErr result (self.new ≡ self.old) }
        ensures me { OnErr result (me.new ≡ me.old) }
    {
        let Place::File { num, at } = me.place(h) else {
            return Ok(Reply::BadHandle);
        };
        if bytes.is_empty() {
            return Ok(Reply::Done);
        }
        if self.file_len(num) < at as usize + bytes.len() {
            return Ok(Reply::PastEnd);
        }
        self.put(me, h, num, at, bytes.as_slice())?;
        Ok(Reply::Done)
    }

    /// An overwrite that stops after n bytes.
    pub(super) fn overwrite_short(
        &mut self,
        me: &mut Private,
        h: u16,
        bytes: &Chunk,
        n: u32,
    ) -> Result<Reply, NoMemory>
        requires files { (num : Num) → length (file_of self.old num) ≤ 65536 }
        requires inside { (num : Num) (at : ℕ) → place_of me.old.places h ≡ File num at → 0 < n
            → (n ≤ length bytes.now) × (at + n ≤ length (file_of self.old num)) }
        ensures ok { IfOk result (λ reply.
            overwrite_short self.old me.old (h, place_of me.old.places h) bytes.now n ≡ step_to self.new me.new reply) }
        ensures world { OnErr result (self.new ≡ self.old) }
        ensures me { OnErr result (me.new ≡ me.old) }
    {
        let Place::File { num, at } = me.place(h) else {
            return Ok(Reply::Fault(n));
        };
        if n == 0 {
            return Ok(Reply::Fault(n));
        }
        self.put(me, h, num, at, &bytes.as_slice()[..n as usize])?;
        Ok(Reply::Fault(n))
    }

    // A file of a new number with these bytes.
    fn add_bytes(&mut self, num: Num, bytes: &[u8]) -> Result<(), NoMemory>
        requires { is_some (map.get self.old.files num) ≡ false }
        ensures ok { OnOk result (self.new ≡ with_file self.old num (file_of self.old num ++ bytes.now)) }
        ensures err { OnErr result (self.new ≡ self.old) }
    {
        let mut file = FileBody::empty(self.alloc);
        file.append(bytes)?;
        self.files.insert(num, file)
    }

    // These bytes come behind those of a file that is there. It is taken out, and put back in any case.
    fn grow(&mut self, num: Num, bytes: &[u8]) -> Result<(), NoMemory>
        requires { is_some (map.get self.old.files num) ≡ true }
        ensures ok { OnOk result (self.new ≡ with_file self.old num (file_of self.old num ++ bytes.now)) }
        ensures err { OnErr result (self.new ≡ self.old) }
    {
        let Some(mut file) = self.files.replace(num, FileBody::empty(self.alloc)) else {
            return Err(NoMemory);
        };
        let done = file.append(bytes);
        self.files.replace(num, file);
        done
    }

    /// These bytes come behind those of a file.
    pub(super) fn put_behind(&mut self, num: Num, bytes: &[u8]) -> Result<(), NoMemory>
        ensures ok { OnOk result (self.new ≡ with_file self.old num (file_of self.old num ++ bytes.now)) }
        ensures err { OnErr result (self.new ≡ self.old) }
    {
        if self.files.get(num).is_some() {
            return self.grow(num, bytes);
        }
        self.add_bytes(num, bytes)
    }

    // These bytes are appended, and the position is the new end.
    fn extend(&mut self, me: &mut Private, h: u16, num: Num, bytes: &[u8]) -> Result<(), NoMemory>
        requires open { h < 256 }
        requires file { length (file_of self.old num) + length bytes.now ≤ 65536 }
        ensures ok { OnOk result (self.new ≡ with_file self.old num (file_of self.old num ++ bytes.now)) }
        ensures moved { OnOk result (me.new ≡ with_place me.old h (File num (length (file_of self.old num) + length bytes.now))) }
        ensures world { OnErr result (self.new ≡ self.old) }
        ensures me { OnErr result (me.new ≡ me.old) }
    {
        let at = (self.file_len(num) + bytes.len()) as u32;
        self.put_behind(num, bytes)?;
        me.set_place(h, Place::File { num, at });
        Ok(())
    }

    pub(super) fn append(
        &mut self,
        me: &mut Private,
        h: u16,
        bytes: &Chunk,
    ) -> Result<Reply, NoMemory>
        requires files { (num : Num) → length (file_of self.old num) ≤ 65536 }
        ensures ok { IfOk result (λ reply.
            append_at self.old me.old h bytes.now (place_of me.old.places h) ≡ step_to self.new me.new reply) }
        ensures world { OnErr result (self.new ≡ self.old) }
        ensures me { OnErr result (me.new ≡ me.old) }
    {
        let Place::File { num, .. } = me.place(h) else {
            return Ok(Reply::BadHandle);
        };
        if bytes.is_empty() {
            return Ok(Reply::Done);
        }
        if (self.file_len(num) + bytes.len()) as u64 > MOST_FILE_BYTES {
            return Ok(Reply::TooBig);
        }
        self.extend(me, h, num, bytes.as_slice())?;
        Ok(Reply::Done)
    }

    /// An append that stops after n bytes.
    pub(super) fn append_short(
        &mut self,
        me: &mut Private,
        h: u16,
        bytes: &Chunk,
        n: u32,
    ) -> Result<Reply, NoMemory>
        requires inside { (num : Num) (at : ℕ) → place_of me.old.places h ≡ File num at → 0 < n
            → (n ≤ length bytes.now) × (length (file_of self.old num) + n ≤ 65536) }
        ensures ok { IfOk result (λ reply.
            append_short self.old me.old (h, place_of me.old.places h) bytes.now n ≡ step_to self.new me.new reply) }
        ensures world { OnErr result (self.new ≡ self.old) }
        ensures me { OnErr result (me.new ≡ me.old) }
    {
        let Place::File { num, .. } = me.place(h) else {
            return Ok(Reply::Fault(n));
        };
        if n == 0 {
            return Ok(Reply::Fault(n));
        }
        self.extend(me, h, num, &bytes.as_slice()[..n as usize])?;
        Ok(Reply::Fault(n))
    }

    pub(super) fn len_of(&self, me: &Private, h: u16) -> Reply
        ensures { len_at self.now me.now (place_of me.now.places h) ≡ step_to self.now me.now result }
    {
        match me.place(h) {
            Place::File { num, .. } => Reply::Number(self.file_len(num) as u64),
            _ => Reply::BadHandle,
        }
    }
}
