ghost use Rattle.std.specs.Prelude.{◌≡◌, true, None, IsTrue};
ghost use Rattle.xc_data.specs.Calls.{thread_in};
ghost use Rattle.xc_data.specs.declared.call.LateCall.TheVariants.{Unlink, Sync, Shutdown};
ghost use Rattle.xc_host.specs.Contents.{has_file};
ghost use Rattle.xc_host.specs.Fronted.{before, fronted};
ghost use Rattle.xc_host.specs.Kept.{KeepsData};
ghost use Rattle.xc_host.specs.Pipes.{is_shuttable};
ghost use Rattle.xc_deferred.specs.Does.{IsThereFor};
ghost use Rattle.xc_deferred.specs.Ended.{EndsAt};
ghost use Rattle.xc_deferred.specs.Queue.{is_late_fit};

use crate::putting::write_pipe;
use crate::sending::send;
use xc_buffers::Kept;
use xc_data::{LateCall, LateEnd, Num, Object, SharedName};
use xc_host::{Host, HostErr};

// The host removes no name that is absent, so it is asked for the name first.
fn unlink<H: Host>(host: &mut H, name: &SharedName) -> LateEnd
    ensures ends { EndsAt H.model (Unlink name.now) (record { old = host.old; new = host.new }) result }
    ensures keeps { IsTrue H.model.tells → KeepsData (H.model.contents host.old) (H.model.contents host.new) }
{
    match host.lookup(name.value()) {
        Ok(Some(_)) => {}
        Ok(None) => return LateEnd::NoName,
        Err(HostErr::Fault) => return LateEnd::Fault(0),
        Err(HostErr::NoMemory) => return LateEnd::NoMemory(0),
    }
    match host.unlink(name.value()) {
        Ok(_) => LateEnd::Done,
        Err(_) => LateEnd::Fault(0),
    }
}

fn sync<H: Host>(host: &mut H, file: Num) -> LateEnd
    requires there { IsTrue H.model.tells → has_file (H.model.contents host.old) file ≡ true }
    ensures ends { EndsAt H.model (Sync file) (record { old = host.old; new = host.new }) result }
    ensures keeps { IsTrue H.model.tells → KeepsData (H.model.contents host.old) (H.model.contents host.new) }
{
    match host.sync(file) {
        Ok(_) => LateEnd::Done,
        Err(_) => LateEnd::Fault(0),
    }
}

fn shut<H: Host>(host: &mut H, object: &Object) -> LateEnd
    requires shuttable { is_shuttable object.now ≡ true }
    requires there { IsTrue H.model.tells → IsThereFor (H.model.contents host.old) (Shutdown object.now) }
    ensures ends { EndsAt H.model (Shutdown object.now) (record { old = host.old; new = host.new }) result }
    ensures keeps { IsTrue H.model.tells → KeepsData (H.model.contents host.old) (H.model.contents host.new) }
{
    match host.shut(object) {
        Ok(_) => LateEnd::Done,
        Err(_) => LateEnd::Fault(0),
    }
}

/// Does a late call that starts no job at a host with kept items in front of it, and answers how it ended.
pub(crate) fn do_late<H: Host>(host: &mut H, kept: &Kept, call: &LateCall) -> LateEnd
    requires fit { is_late_fit call.now ≡ true }
    requires hosted { thread_in call.now ≡ None }
    requires there { IsTrue H.model.tells → IsThereFor (H.model.contents host.old) call.now }
    ensures ends { EndsAt (fronted H.model) call.now (record {
      old = before host.old kept.now.items;
      new = before host.new kept.now.items;
    }) result }
    ensures keeps { IsTrue H.model.tells → KeepsData (H.model.contents host.old) (H.model.contents host.new) }
{
    match call {
        LateCall::Unlink(name) => unlink(host, name),
        LateCall::Sync(file) => sync(host, *file),
        LateCall::WritePipe(pipe, bytes) => write_pipe(host, kept, *pipe, bytes),
        LateCall::Shutdown(object) => shut(host, object),
        LateCall::Send { pair, side, bytes } => send(host, kept, *pair, *side, bytes),
        // The contract leaves no call that starts a job.
        LateCall::Thread(_) => unreachable!(),
    }
}
