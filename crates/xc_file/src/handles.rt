ghost use Rattle.std.specs.Prelude.{◌≡◌, ℕ, false, Ok, IsTrue};
ghost use Rattle.xc_data.specs.Calls.{is_late};
ghost use Rattle.xc_data.specs.Private.{place_of};
ghost use Rattle.xc_data.specs.declared.call.Call.TheVariants.{XSeek, XLen, XClose};
ghost use Rattle.xc_compensate.specs.Records.{Records};
ghost use Rattle.xc_calls.specs.Calls.{IsHostCall, StepsAlone};
ghost use Rattle.xc_file.specs.Passing.{IsFileThere};
ghost use Rattle.xc_calls.specs.Passing.{Passes};
ghost use Rattle.xc_file.specs.Checks.{IsOpenAt, IsOpenIn};

use crate::checks::{OpenFile, file_at};
use xc_data::{Place, Private, Reply};
use xc_host::Host;

/// Sets the position of an open file, also past the file's end. Past the host's `most_file_bytes` it is `TooBig`, and the position
/// stays. The host counts no call.
pub fn x_seek<H: Host>(host: &H, me: &mut Private, h: u16, to: u64) -> Reply
    ensures call { (number : ℕ) (undo : Records) → IsHostCall H.model (XSeek h to)
        (record { host = host.now; number = number; me = me.old; undo = undo })
        (record { host = host.now; number = number; me = me.new; undo = undo }) (Ok result) }
    ensures same { (me.new.stored ≡ me.old.stored) × (me.new.made ≡ me.old.made) }
    ensures now { is_late result ≡ false }
{
    let Some(file) = file_at(me, h) else {
        return Reply::BadHandle;
    };
    if to > host.most_file_bytes() as u64 {
        return Reply::TooBig;
    }
    let at = to as u32;
    me.set_place(h, Place::File { num: file.num, at });
    Reply::Done
}

/// Gives up a handle. What stood at it is left as it is.
pub fn x_close(me: &mut Private, h: u16) -> Reply
    ensures call { StepsAlone (XClose h) me.old me.new result }
    ensures same { (me.new.stored ≡ me.old.stored) × (me.new.made ≡ me.old.made) }
    ensures now { is_late result ≡ false }
{
    if me.place(h).is_vacant() {
        return Reply::BadHandle;
    }
    me.set_place(h, Place::Vacant);
    Reply::Done
}

// Asks the host for an open file's length.
fn len_of<H: Host>(host: &mut H, me: &Private, file: OpenFile) -> Reply
    requires file { IsOpenAt me.now file }
    requires there { IsFileThere H.model host.old file.num }
    ensures passes { (number : ℕ) (undo : Records) → Passes H.model (XLen file.h) (record {
      old = record { host = host.old; number = number; me = me.now; undo = undo };
      new = record { host = host.new; number = number; me = me.now; undo = undo };
    }) (Ok result) }
    ensures contents { IsTrue H.model.tells → H.model.contents host.new ≡ H.model.contents host.old }
    ensures now { is_late result ≡ false }
{
    match host.len(file.num) {
        Ok(n) => Reply::Number(n as u64),
        Err(_) => Reply::Fault(0),
    }
}

/// Tells an open file's length. It takes no memory.
pub fn x_len<H: Host>(host: &mut H, me: &Private, h: u16) -> Reply
    requires open { IsTrue H.model.tells → IsOpenIn (H.model.contents host.old) (place_of me.now.places h) }
    ensures call { (number : ℕ) (undo : Records) → IsHostCall H.model (XLen h)
        (record { host = host.old; number = number; me = me.now; undo = undo })
        (record { host = host.new; number = number; me = me.now; undo = undo }) (Ok result) }
    ensures contents { IsTrue H.model.tells → H.model.contents host.new ≡ H.model.contents host.old }
    ensures now { is_late result ≡ false }
{
    let Some(file) = file_at(me, h) else {
        return Reply::BadHandle;
    };
    len_of(host, me, file)
}
