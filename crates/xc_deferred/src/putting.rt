ghost use Rattle.std.specs.Prelude.{◌≡◌, ◌<◌, ◌≤◌, ◌+◌, ◌-◌, ◌^◌, true, false, length, IsTrue};
ghost use Rattle.xc_data.specs.Counts.{CountsFault};
ghost use Rattle.xc_data.specs.Faults.{is_fault_end};
ghost use Rattle.xc_data.specs.declared.call.LateCall.TheVariants.{WritePipe};
ghost use Rattle.xc_buffers.specs.Items.{kept_bytes};
ghost use Rattle.xc_host.specs.Fronted.{before, fronted};
ghost use Rattle.xc_host.specs.Kept.{KeepsData};
ghost use Rattle.xc_host.specs.Pipes.{has_pipe, pipe_in};
ghost use Rattle.xc_host.specs.Uses.{Uses};
ghost use Rattle.xc_deferred.specs.Ended.{EndsAt};
ghost use Rattle.xc_deferred.specs.Puts.{IsPut, PutsOnly, Writes};

use xc_buffers::Kept;
use xc_data::{Chunk, LateEnd, Num, Object};
use xc_host::{Host, HostErr};

// The most bytes that a pipe holds, with what is kept of it.
const MOST_HELD: u32 = 4096;

/// How many bytes are put, and what stopped the write there.
#[derive(Clone, Copy)]
pub(crate) struct Put {
    done: u32,
    end: Result<(), HostErr>,
}

// Puts until all is put or a put fails.
fn put_whole<H: Host>(host: &mut H, pipe: Num, bytes: &[u8]) -> Put
    requires few { length bytes.now < 2 ^ 32 }
    requires there { IsTrue H.model.tells → has_pipe (H.model.contents host.old) pipe ≡ true }
    requires unshut { IsTrue H.model.tells → (pipe_in (H.model.contents host.old) pipe).shut ≡ false }
    requires fits { IsTrue H.model.tells → 0 < length bytes.now
        → length (pipe_in (H.model.contents host.old) pipe).held + length bytes.now ≤ 4096 }
    ensures { IsPut H.model pipe bytes.now (record { old = host.old; new = host.new }) result }
{
    let mut done: u32 = 0;
    while (done as usize) < bytes.len() {
        match host.put(pipe, &bytes[done as usize..]) {
            Ok(count) => done += count,
            Err(error) => {
                return Put {
                    done,
                    end: Err(error),
                };
            }
        }
    }
    Put { done, end: Ok(()) }
}

// The bytes that a pipe has room for, after what is kept of it and what the host holds.
fn room_behind(kept: &Kept, pipe: Num, held: u32) -> u32
    ensures { result ≡ 4096 - (length (kept_bytes pipe kept.now.items) + held) }
{
    let before = kept.held(&Object::Pipe(pipe), 0);
    MOST_HELD.saturating_sub(before.saturating_add(held))
}

// Puts what fits of the bytes into a pipe that isn't shut.
fn put_fitting<H: Host>(host: &mut H, pipe: Num, bytes: &Chunk, room: u32) -> LateEnd
    requires few { room ≤ 4096 }
    requires there { IsTrue H.model.tells → has_pipe (H.model.contents host.old) pipe ≡ true }
    requires unshut { IsTrue H.model.tells → (pipe_in (H.model.contents host.old) pipe).shut ≡ false }
    requires fits { IsTrue H.model.tells → 0 < room → length (pipe_in (H.model.contents host.old) pipe).held + room ≤ 4096 }
    ensures told { IsTrue H.model.tells
        → Writes (record { old = H.model.contents host.old; new = H.model.contents host.new }) pipe bytes.now room result }
    ensures uses { Uses H.model (record { old = host.old; new = host.new }) (PutsOnly (length bytes.now) result) }
    ensures cause { CountsFault (is_fault_end result) (H.model.fault_count host.old) (H.model.fault_count host.new) }
{
    let n = bytes.len().min(room as usize);
    let put = put_whole(host, pipe, &bytes.as_slice()[..n]);
    match put.end {
        Ok(()) if n < bytes.len() => LateEnd::Full(room),
        Ok(()) => LateEnd::Done,
        Err(HostErr::Fault) => LateEnd::Fault(put.done),
        Err(HostErr::NoMemory) => LateEnd::NoMemory(put.done),
    }
}

/// Writes to a pipe. Its room counts what is kept of it with what the host holds.
pub(crate) fn write_pipe<H: Host>(host: &mut H, kept: &Kept, pipe: Num, bytes: &Chunk) -> LateEnd
    requires there { IsTrue H.model.tells → has_pipe (H.model.contents host.old) pipe ≡ true }
    ensures ends { EndsAt (fronted H.model) (WritePipe pipe bytes.now) (record {
      old = before host.old kept.now.items;
      new = before host.new kept.now.items;
    }) result }
    ensures keeps { IsTrue H.model.tells → KeepsData (H.model.contents host.old) (H.model.contents host.new) }
{
    let state = match host.pipe_state(pipe) {
        Ok(state) => state,
        Err(_) => return LateEnd::Fault(0),
    };
    if state.shut {
        return LateEnd::Shut;
    }
    let room = room_behind(kept, pipe, state.held);
    put_fitting(host, pipe, bytes, room)
}
