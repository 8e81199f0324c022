ghost use Rattle.std.specs.Prelude.{◌≡◌, [], ◌∷◌, IfOk, MatchOption};
ghost use Rattle.xc_data.specs.Calls.{late_call, sync_of, shutdown_of, write_pipe_of, send_of};

use crate::{Call, Chunk, LateCall, NoMemory, Object, Place, Private};

// The late call of a call on a handle.
fn sync_of(place: Place) -> Option<LateCall>
    ensures { MatchOption result (sync_of place ≡ []) (λ late. sync_of place ≡ late ∷ []) }
{
    match place {
        Place::File { num, .. } => Some(LateCall::Sync(num)),
        Place::Vacant | Place::Pipe(_) | Place::Pair { .. } => None,
    }
}

fn shutdown_of(place: Place) -> Option<LateCall>
    ensures { MatchOption result (shutdown_of place ≡ []) (λ late. shutdown_of place ≡ late ∷ []) }
{
    match place {
        Place::Pipe(num) => Some(LateCall::Shutdown(Object::Pipe(num))),
        Place::Pair { num, .. } => Some(LateCall::Shutdown(Object::Pair(num))),
        Place::Vacant | Place::File { .. } => None,
    }
}

fn write_pipe_of(place: Place, bytes: &Chunk) -> Result<Option<LateCall>, NoMemory>
    ensures { IfOk result (λ found.
        MatchOption found (write_pipe_of place bytes.now ≡ []) (λ late. write_pipe_of place bytes.now ≡ late ∷ [])) }
{
    match place {
        Place::Pipe(num) => Ok(Some(LateCall::WritePipe(num, bytes.share()?))),
        Place::Vacant | Place::File { .. } | Place::Pair { .. } => Ok(None),
    }
}

fn send_of(place: Place, bytes: &Chunk) -> Result<Option<LateCall>, NoMemory>
    ensures { IfOk result (λ found. MatchOption found (send_of place bytes.now ≡ []) (λ late. send_of place bytes.now ≡ late ∷ [])) }
{
    match place {
        Place::Pair { num, side } => Ok(Some(LateCall::Send {
            pair: num,
            side,
            bytes: bytes.share()?,
        })),
        Place::Vacant | Place::File { .. } | Place::Pipe(_) => Ok(None),
    }
}

impl Call {
    /// The late call that it leaves, its object fixed by the handle as it is now.
    pub fn late_call(&self, me: &Private) -> Result<Option<LateCall>, NoMemory>
        ensures { IfOk result (λ found.
            MatchOption found (late_call self.now me.now ≡ []) (λ late. late_call self.now me.now ≡ late ∷ [])) }
    {
        match self {
            Call::XUnlink { name, .. } => Ok(Some(LateCall::Unlink(name.again()))),
            Call::XSync { h, .. } => Ok(sync_of(me.place(*h))),
            Call::XWritePipe { h, bytes, .. } => write_pipe_of(me.place(*h), bytes),
            Call::XShutdown { h, .. } => Ok(shutdown_of(me.place(*h))),
            Call::XSendmsg { h, bytes, .. } => send_of(me.place(*h), bytes),
            Call::XThreadCreate { body, .. } => Ok(Some(LateCall::Thread(*body.value()))),
            Call::Load { .. } | Call::Store { .. } | Call::XOpen { .. } => Ok(None),
            Call::XCreate { .. } | Call::XRead { .. } | Call::XWriteOvr { .. } => Ok(None),
            Call::XWriteSeq { .. } | Call::XSeek { .. } | Call::XLen { .. } => Ok(None),
            Call::XRename { .. } | Call::XClose { .. } | Call::XPipe => Ok(None),
            Call::XReadPipe { .. } | Call::XPair | Call::XRecvmsg { .. } => Ok(None),
            Call::Save | Call::Keep | Call::Back => Ok(None),
        }
    }
}
