ghost use Rattle.std.specs.Prelude.{◌≡◌, ◌≤◌, ℕ, length, IsTrue, IfOk, OnOk, OnErr};
ghost use Rattle.xc_data.specs.declared.private.Private.{Private};
ghost use Rattle.xc_world.specs.World.{pipe_of, pair_of, with_pair};
ghost use Rattle.xc_world.specs.Fits.{is_late_within};
ghost use Rattle.xc_world.specs.Sound.{IsSound, IsShortCall, late_bytes_of, is_there, names_there};
ghost use Rattle.xc_world.specs.Late.{late, late_fine, ends, unlinked, room, with_put, pipe_written, stopped};
ghost use Rattle.xc_world.specs.Late.{shut_down, sent, sent_to, is_block, thread_started};
ghost use Rattle.std.specs.FinMap as map;

use super::pipes::other_side;
use super::shared::{joined, shared};
use super::{MachinePair, MachinePipe, World};
use xc_data::{Chunk, Ident, LateAnswer, LateCall, LateEnd, Name, NoMemory, Num, Object};

impl World {
    fn unlink(&mut self, name: Name) -> LateEnd
        ensures { unlinked self.old name (map.get self.old.names name) ≡ ends self.new result }
    {
        if self.names.get(name).is_none() {
            return LateEnd::NoName;
        }
        self.names.remove(name);
        LateEnd::Done
    }

    // How many more bytes fit a pipe.
    pub(super) fn room(&self, num: Num) -> usize
        ensures value { result ≡ room (pipe_of self.now num) }
        ensures bound { result ≤ 4096 }
    {
        4096_usize.saturating_sub(self.held(num).len())
    }

    // These bytes are put into a pipe.
    fn put_bytes(&mut self, num: Num, bytes: &[u8]) -> Result<(), NoMemory>
        ensures ok { OnOk result (self.new ≡ with_put self.old num bytes.now) }
        ensures err { OnErr result (self.new ≡ self.old) }
    {
        let held = joined(self.alloc, self.held(num), bytes)?;
        self.set_held(num, held)
    }

    fn write_pipe(&mut self, num: Num, bytes: &[u8]) -> Result<LateEnd, NoMemory>
        ensures ok { IfOk result (λ end. pipe_written self.old num bytes.now ≡ ends self.new end) }
        ensures err { OnErr result (self.new ≡ self.old) }
    {
        if self.is_pipe_shut(num) {
            return Ok(LateEnd::Shut);
        }
        let room = self.room(num);
        if room < bytes.len() {
            self.put_bytes(num, &bytes[..room])?;
            return Ok(LateEnd::Full(room as u32));
        }
        self.put_bytes(num, bytes)?;
        Ok(LateEnd::Done)
    }

    fn shut_pipe(&mut self, num: Num) -> Result<(), NoMemory>
        ensures ok { OnOk result (shut_down self.old (Object.Pipe num) ≡ ends self.new LateEnd.Done) }
        ensures err { OnErr result (self.new ≡ self.old) }
    {
        let held = Chunk::new(self.alloc, self.held(num))?;
        self.pipes.insert(num, MachinePipe { held, shut: true })
    }

    fn shut_pair(&mut self, num: Num) -> Result<(), NoMemory>
        ensures ok { OnOk result (shut_down self.old (Object.Pair num) ≡ ends self.new LateEnd.Done) }
        ensures err { OnErr result (self.new ≡ self.old) }
    {
        let first = shared(self.alloc, self.waiting(num, 0))?;
        let second = shared(self.alloc, self.waiting(num, 1))?;
        let shut = true;
        self.pairs.insert(
            num,
            MachinePair {
                first,
                second,
                shut,
            },
        )
    }

    fn shut_down(&mut self, object: &Object) -> Result<LateEnd, NoMemory>
        ensures ok { IfOk result (λ end. shut_down self.old object.now ≡ ends self.new end) }
        ensures err { OnErr result (self.new ≡ self.old) }
    {
        match object {
            Object::Pipe(num) => self.shut_pipe(*num)?,
            Object::Pair(num) => self.shut_pair(*num)?,
            _ => {}
        }
        Ok(LateEnd::Done)
    }

    // Another message waits for a side.
    fn put_message(&mut self, num: Num, side: u8, bytes: &Chunk) -> Result<(), NoMemory>
        ensures ok { OnOk result (self.new ≡ with_pair self.old num (sent_to (pair_of self.old num) side bytes.now)) }
        ensures err { OnErr result (self.new ≡ self.old) }
    {
        let mut messages = shared(self.alloc, self.waiting(num, side))?;
        messages.push(bytes.share()?)?;
        self.set_waiting(num, side, messages)
    }

    fn send(&mut self, num: Num, side: u8, bytes: &Chunk) -> Result<LateEnd, NoMemory>
        ensures ok { IfOk result (λ end. sent self.old num side bytes.now ≡ ends self.new end) }
        ensures err { OnErr result (self.new ≡ self.old) }
    {
        if self.is_pair_shut(num) {
            return Ok(LateEnd::Shut);
        }
        let other = other_side(side);
        if self.waiting(num, other).len() >= 8 {
            return Ok(LateEnd::Full(0));
        }
        self.put_message(num, other, bytes)?;
        Ok(LateEnd::Done)
    }

    fn is_block(&self, body: Ident) -> bool
        ensures { result ≡ is_block self.now body }
    {
        self.blocks.as_slice().iter().any(|block| *block == body)
    }

    fn start(&mut self, body: Ident) -> Result<LateEnd, NoMemory>
        ensures ok { IfOk result (λ end. thread_started self.old body ≡ ends self.new end) }
        ensures err { OnErr result (self.new ≡ self.old) }
    {
        if !self.is_block(body) {
            return Ok(LateEnd::NoScript);
        }
        if self.started.len() >= 1000 {
            return Ok(LateEnd::Full(0));
        }
        self.started.push(body)?;
        Ok(LateEnd::Done)
    }

    // A late call where the host does its part.
    fn late_fine(&mut self, call: &LateCall) -> Result<LateEnd, NoMemory>
        ensures ok { IfOk result (λ end. late_fine self.old call.now ≡ ends self.new end) }
        ensures err { OnErr result (self.new ≡ self.old) }
    {
        match call {
            LateCall::Unlink(name) => Ok(self.unlink(*name.value())),
            LateCall::Sync(_) => Ok(LateEnd::Done),
            LateCall::WritePipe(num, bytes) => self.write_pipe(*num, bytes.as_slice()),
            LateCall::Shutdown(object) => self.shut_down(object),
            LateCall::Send { pair, side, bytes } => self.send(*pair, *side, bytes),
            LateCall::Thread(body) => self.start(*body),
        }
    }

    // A late call that stops after n bytes: of a write to a pipe what fits of them is put.
    fn stop(&mut self, call: &LateCall, n: u32) -> Result<(), NoMemory>
        requires { n ≤ length (late_bytes_of call.now) }
        ensures ok { OnOk result (self.new ≡ stopped self.old call.now n) }
        ensures err { OnErr result (self.new ≡ self.old) }
    {
        // Any other late call stops before it does anything, also one yet to come.
        let LateCall::WritePipe(num, bytes) = call else {
            return Ok(());
        };
        if n == 0 || self.is_pipe_shut(*num) {
            return Ok(());
        }
        let fitting = (n as usize).min(self.room(*num));
        self.put_bytes(*num, &bytes.as_slice()[..fitting])
    }

    fn has(&self, object: &Object) -> bool
        ensures { result ≡ is_there self.now object.now }
    {
        match object {
            Object::File(num) => self.files.get(*num).is_some(),
            Object::Pipe(num) => self.pipes.get(*num).is_some(),
            Object::Pair(num) => self.pairs.get(*num).is_some(),
            _ => true,
        }
    }

    /// Whether the object that a late call names by its number is in the world.
    pub fn has_object_of(&self, call: &LateCall) -> bool
        ensures { result ≡ names_there self.now call.now }
    {
        match call {
            LateCall::Sync(num) => self.files.get(*num).is_some(),
            LateCall::WritePipe(num, _) => self.pipes.get(*num).is_some(),
            LateCall::Shutdown(object) => self.has(object),
            LateCall::Send { pair, .. } => self.pairs.get(*pair).is_some(),
            LateCall::Unlink(_) | LateCall::Thread(_) => true,
        }
    }

    fn late_step(&mut self, call: &LateCall, answer: LateAnswer) -> Result<LateEnd, NoMemory>
        requires { IsTrue (is_late_within call.now answer) }
        ensures ok { IfOk result (λ end. late self.old call.now answer ≡ ends self.new end) }
        ensures err { OnErr result (self.new ≡ self.old) }
    {
        match answer {
            LateAnswer::Fine => self.late_fine(call),
            LateAnswer::Fault(n) => {
                self.stop(call, n)?;
                Ok(LateEnd::Fault(n))
            }
            LateAnswer::NoMemory(n) => {
                self.stop(call, n)?;
                Ok(LateEnd::NoMemory(n))
            }
        }
    }

    /// One late call on the plain machine, with what it met at the host.
    pub fn late(&mut self, call: &LateCall, answer: LateAnswer) -> Result<LateEnd, NoMemory>
        requires within { IsTrue (is_late_within call.now answer) }
        requires short { IsShortCall call.now }
        requires there { IsTrue (names_there self.old call.now) }
        ensures sound { (me : Private) (tx : ℕ) → IsSound self.old me tx → OnOk result (IsSound self.new me tx) }
        ensures ok { IfOk result (λ end. late self.old call.now answer ≡ ends self.new end) }
        ensures err { OnErr result (self.new ≡ self.old) }
    {
        let end = self.late_step(call, answer)?;
        Ok(end)
    }
}
