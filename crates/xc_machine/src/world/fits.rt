ghost use Rattle.std.specs.Prelude.{◌≡◌, ℕ};
ghost use Rattle.xc_data.specs.Private.{place_of};
ghost use Rattle.xc_world.specs.Fits.{is_back, is_done, is_thread, may_stop, late_may_stop, fits, late_fits};
ghost use Rattle.xc_world.specs.Act.Files.{overwrite_at, append_at};

use super::World;
use xc_data::{Answer, Call, Chunk, LateAnswer, LateCall, Place, Private};
use xc_world::checks::is_refused;

fn is_back(call: &Call) -> bool
    ensures { result ≡ is_back call.now }
{
    matches!(call, Call::Back)
}

fn is_thread(call: &LateCall) -> bool
    ensures { result ≡ is_thread call.now }
{
    matches!(call, LateCall::Thread(_))
}

impl World {
    // Bytes written over from the position on stay within the file, which none always do.
    fn overwrites(&self, me: &Private, h: u16, bytes: &Chunk) -> bool
        ensures { result ≡ is_done (overwrite_at self.now me.now h bytes.now (place_of me.now.places h)).reply }
    {
        let Place::File { num, at } = me.place(h) else {
            return false;
        };
        bytes.len() <= self.file_len(num).saturating_sub(at as usize)
    }

    // Bytes appended leave the file within its limit, as none always do.
    fn appends(&self, me: &Private, h: u16, bytes: &Chunk) -> bool
        ensures { result ≡ is_done (append_at self.now me.now h bytes.now (place_of me.now.places h)).reply }
    {
        let Place::File { num, .. } = me.place(h) else {
            return false;
        };
        bytes.len() <= 65536_usize.saturating_sub(self.file_len(num))
    }

    // A write that would be done stops before its last byte.
    fn may_stop(&self, me: &Private, call: &Call, n: u32) -> bool
        ensures { (tx : ℕ) → result ≡ may_stop self.now me.now tx call.now n }
    {
        match call {
            Call::XWriteOvr { h, bytes } => {
                self.overwrites(me, *h, bytes) && (n as usize) < bytes.len()
            }
            Call::XWriteSeq { h, bytes } => {
                self.appends(me, *h, bytes) && (n as usize) < bytes.len()
            }
            // Any other call is done or not, also one yet to come.
            _ => false,
        }
    }

    /// Whether an answer of the host fits a call, decided without doing the call.
    pub fn fits(&self, me: &Private, tx: u32, call: &Call, answer: Answer) -> bool
        ensures { result ≡ fits self.now me.now tx call.now answer }
    {
        let n = match answer {
            Answer::Fine => return true,
            Answer::Undone(_) => return is_back(call),
            Answer::Fault(n) => n,
        };
        if is_refused(call, me, self.words.len() as u64) {
            return false;
        }
        if n == 0 {
            call.asks_host()
        } else {
            self.may_stop(me, call, n)
        }
    }

    // A write to a pipe stops before the last byte that would be put.
    fn late_may_stop(&self, call: &LateCall, n: u32) -> bool
        ensures { result ≡ late_may_stop self.now call.now n }
    {
        // Any other late call is done or not, also one yet to come.
        let LateCall::WritePipe(num, bytes) = call else {
            return false;
        };
        !self.is_pipe_shut(*num) && (n as usize) < bytes.len().min(self.room(*num))
    }

    /// Whether an answer of the host fits a late call, decided without doing it.
    pub fn late_fits(&self, call: &LateCall, answer: LateAnswer) -> bool
        ensures { result ≡ late_fits self.now call.now answer }
    {
        match answer {
            LateAnswer::Fine => true,
            LateAnswer::Fault(0) => !is_thread(call),
            LateAnswer::NoMemory(0) => true,
            LateAnswer::Fault(n) | LateAnswer::NoMemory(n) => self.late_may_stop(call, n),
        }
    }
}
