ghost use Rattle.std.specs.Prelude.{◌≡◌, ◌<◌, ◌+◌, ◌^◌};
ghost use Rattle.xc_judge.specs.Counts.{count_of, count_with, counts};
ghost use Rattle.xc_model.specs.Recorded.{no_records};
ghost use Rattle.xc_world.specs.RecordOf.{leaves_record, wrote_some};

use xc_data::{Call, Chunk, Reply};

/// How many records a transaction has, and in an open block how many it had at the save.
#[derive(Drop)]
pub(crate) struct Counted {
    pub(crate) count: usize,
    pub(crate) saved: Option<usize>,
}

// A write did some of its bytes.
fn wrote_some(bytes: &Chunk, reply: &Reply) -> bool
    ensures { result ≡ wrote_some bytes.now reply.now }
{
    match reply {
        Reply::Done => bytes.len() > 0,
        Reply::Fault(n) => *n > 0,
        // With any other reply nothing was done, also with one yet to come.
        _ => false,
    }
}

// A call with this reply leaves a record.
fn leaves_record(call: &Call, reply: &Reply) -> bool
    ensures { result ≡ leaves_record call.now reply.now }
{
    match (call, reply) {
        (Call::XWriteOvr { bytes, .. } | Call::XWriteSeq { bytes, .. }, _) => wrote_some(
            bytes, reply,
        ),
        (Call::XCreate { .. } | Call::XPipe, Reply::Made(_)) => true,
        (Call::XPair, Reply::MadePair(..)) => true,
        (Call::XRename { .. }, Reply::Done) => true,
        // No other call leaves one.
        _ => false,
    }
}

impl Counted {
    /// Before the first call.
    pub(crate) fn none() -> Counted
        ensures { counts result ≡ count_of no_records }
    {
        Counted {
            count: 0,
            saved: None,
        }
    }

    /// With one call more. A back leaves those of the save.
    pub(crate) fn take_call(&mut self, call: &Call, reply: &Reply)
        requires { self.old.count + 1 < 2 ^ 64 }
        ensures { counts self.new ≡ count_with (counts self.old) call.now reply.now }
    {
        match call {
            Call::Save => self.saved = Some(self.count),
            Call::Keep => self.saved = None,
            Call::Back => {
                self.count = self.saved.unwrap_or(self.count);
                self.saved = None;
            }
            // Any other call is made in the block that is open, also one yet to come.
            _ => {
                if leaves_record(call, reply) {
                    self.count += 1;
                }
            }
        }
    }
}
