ghost use Rattle.std.specs.Prelude.{◌≡◌, ◌≤◌, ◌<◌, false, length, slice_index, IsTrue, IfOk, OnOk, OnErr};
ghost use Rattle.xc_data.specs.declared.call.Answer.TheVariants as answer;
ghost use Rattle.xc_data.specs.Private.{place_of, is_vacant, with_place};
ghost use Rattle.xc_world.specs.Checks.{is_refused as refuses};
ghost use Rattle.xc_data.specs.Calls.{bytes_of};
ghost use Rattle.xc_world.specs.Fits.{fits};
ghost use Rattle.xc_world.specs.Sound.{IsSound};
ghost use Rattle.xc_world.specs.Act.{act, done, fine, faulty};
ghost use Rattle.xc_world.specs.Act.Step.{step_to, storing_call, storing_reply, IsShortReply};
ghost use Rattle.xc_world.specs.Act.Files.{seek_at};

use super::World;
use xc_data::{Answer, Call, MOST_FILE_BYTES, NoMemory, Place, Private, Reply};
use xc_world::checks::{is_bad_handle, is_bad_word, is_too_big, is_too_much};

// The bytes of a call and of its reply are stored.
fn count(me: &mut Private, call: &Call, reply: &Reply)
    requires stored { me.old.stored ≤ 16384 }
    requires bytes { length (bytes_of call.now) ≤ 1024 }
    requires reply { IsShortReply reply.now }
    ensures { me.new ≡ storing_reply reply.now (storing_call call.now me.old) }
{
    me.stored += call.bytes().len() as u32;
    if let Reply::Got(bytes) = reply {
        me.stored += bytes.len() as u32;
    }
}

// The handle's position is set, and stays where it would be past 65,536.
fn seek(me: &mut Private, h: u16, to: u64) -> Reply
    ensures { (w : _) → seek_at w me.old h to (place_of me.old.places h) ≡ step_to w me.new result }
{
    let Place::File { num, .. } = me.place(h) else {
        return Reply::BadHandle;
    };
    if to > MOST_FILE_BYTES {
        return Reply::TooBig;
    }
    me.set_place(h, Place::File { num, at: to as u32 });
    Reply::Done
}

fn close(me: &mut Private, h: u16)
    requires { is_vacant (place_of me.old.places h) ≡ false }
    ensures { me.new ≡ with_place me.old h Place.Vacant }
{
    if !me.place(h).is_vacant() {
        me.set_place(h, Place::Vacant);
    }
}

impl World {
    fn load(&self, at: u64) -> Reply
        requires { at < length self.now.words }
        ensures { result ≡ Reply.Number (slice_index self.now.words at) }
    {
        Reply::Number(self.words.as_slice()[at as usize])
    }

    // A call that passed the checks, where the host does its part.
    fn fine(&mut self, me: &mut Private, tx: u32, call: &Call) -> Result<Reply, NoMemory>
        requires sound { IsSound self.old me.old tx }
        requires passed { refuses call.now me.old (length self.old.words) ≡ false }
        ensures ok { IfOk result (λ reply. fine self.old me.old tx call.now ≡ step_to self.new me.new reply) }
        ensures world { OnErr result (self.new ≡ self.old) }
        ensures me { OnErr result (me.new ≡ me.old) }
    {
        match call {
            Call::Load { at } => Ok(self.load(*at)),
            Call::Store { at, value } => {
                self.words.set(*at as usize, *value);
                Ok(Reply::Done)
            }
            Call::XOpen { name } => Ok(self.open(me, *name.value())),
            Call::XCreate { name } => self.create(me, tx, *name.value()),
            Call::XRead { h, n } => self.read(me, *h, *n),
            Call::XWriteOvr { h, bytes } => self.overwrite(me, *h, bytes),
            Call::XWriteSeq { h, bytes } => self.append(me, *h, bytes),
            Call::XSeek { h, to } => Ok(seek(me, *h, *to)),
            Call::XLen { h } => Ok(self.len_of(me, *h)),
            Call::XRename { from, to } => self.rename(*from.value(), *to.value()),
            Call::XClose { h } => {
                close(me, *h);
                Ok(Reply::Done)
            }
            Call::XPipe => self.make_pipe(me, tx),
            Call::XReadPipe { h, n } => self.read_pipe(me, *h, *n),
            Call::XPair => self.make_pair(me, tx),
            Call::XRecvmsg { h } => self.receive(me, *h),
            Call::XUnlink { .. } | Call::XSync { .. } | Call::XWritePipe { .. } => Ok(Reply::Late),
            Call::XShutdown { .. } | Call::XSendmsg { .. } => Ok(Reply::Late),
            Call::XThreadCreate { .. } => Ok(Reply::Late),
            Call::Save | Call::Keep => Ok(Reply::Done),
            Call::Back => Ok(Reply::Undone(0)),
        }
    }

    // A call that passed the checks, where the host fails after n bytes.
    fn faulty(&mut self, me: &mut Private, tx: u32, call: &Call, n: u32) -> Result<Reply, NoMemory>
        requires sound { IsSound self.old me.old tx }
        requires fits { IsTrue (fits self.old me.old tx call.now (answer.Fault n)) }
        ensures ok { IfOk result (λ reply. faulty self.old me.old call.now n ≡ step_to self.new me.new reply) }
        ensures world { OnErr result (self.new ≡ self.old) }
        ensures me { OnErr result (me.new ≡ me.old) }
    {
        match call {
            Call::XWriteOvr { h, bytes } => self.overwrite_short(me, *h, bytes, n),
            Call::XWriteSeq { h, bytes } => self.append_short(me, *h, bytes, n),
            // Any other call leaves nothing after a fault, also one yet to come.
            _ => Ok(Reply::Fault(n)),
        }
    }

    // A call that passed the checks.
    fn done(
        &mut self,
        me: &mut Private,
        tx: u32,
        call: &Call,
        answer: Answer,
    ) -> Result<Reply, NoMemory>
        requires sound { IsSound self.old me.old tx }
        requires passed { refuses call.now me.old (length self.old.words) ≡ false }
        requires fits { IsTrue (fits self.old me.old tx call.now answer) }
        ensures ok { IfOk result (λ reply. done self.old me.old tx call.now answer ≡ step_to self.new me.new reply) }
        ensures world { OnErr result (self.new ≡ self.old) }
        ensures me { OnErr result (me.new ≡ me.old) }
    {
        match answer {
            Answer::Fine => self.fine(me, tx, call),
            Answer::Fault(n) => self.faulty(me, tx, call, n),
            Answer::Undone(n) => Ok(Reply::Undone(n)),
        }
    }

    fn step(
        &mut self,
        me: &mut Private,
        tx: u32,
        call: &Call,
        answer: Answer,
    ) -> Result<Reply, NoMemory>
        requires sound { IsSound self.old me.old tx }
        requires fits { IsTrue (fits self.old me.old tx call.now answer) }
        ensures ok { IfOk result (λ reply. act self.old me.old tx call.now answer ≡ step_to self.new me.new reply) }
        ensures world { OnErr result (self.new ≡ self.old) }
        ensures me { OnErr result (me.new ≡ me.old) }
    {
        if is_bad_handle(call, me) {
            return Ok(Reply::BadHandle);
        }
        if is_too_big(call) {
            return Ok(Reply::TooBig);
        }
        if is_too_much(call, me) {
            return Ok(Reply::TooMuch);
        }
        if is_bad_word(call, self.words.len() as u64) {
            return Ok(Reply::BadWord);
        }
        let reply = self.done(me, tx, call, answer)?;
        count(me, call, &reply);
        Ok(reply)
    }

    /// One call of a transaction's body on the plain machine, with what it met at the host.
    pub fn act(
        &mut self,
        me: &mut Private,
        tx: u32,
        call: &Call,
        answer: Answer,
    ) -> Result<Reply, NoMemory>
        requires sound { IsSound self.old me.old tx }
        requires fits { IsTrue (fits self.old me.old tx call.now answer) }
        ensures sound { OnOk result (IsSound self.new me.new tx) }
        ensures ok { IfOk result (λ reply. act self.old me.old tx call.now answer ≡ step_to self.new me.new reply) }
        ensures world { OnErr result (self.new ≡ self.old) }
        ensures me { OnErr result (me.new ≡ me.old) }
    {
        let reply = self.step(me, tx, call, answer)?;
        Ok(reply)
    }
}
