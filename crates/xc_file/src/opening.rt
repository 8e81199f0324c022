ghost use Rattle.std.specs.Prelude.{◌≡◌, ◌<◌, ℕ, false, Some, IfOk, IsTrue};
ghost use Rattle.xc_data.specs.Calls.{is_late};
ghost use Rattle.xc_data.specs.Private.{lowest_vacant};
ghost use Rattle.xc_data.specs.declared.call.Call.TheVariants.{XOpen};
ghost use Rattle.xc_compensate.specs.Records.{Records};
ghost use Rattle.xc_calls.specs.Calls.{IsHostCall};
ghost use Rattle.xc_calls.specs.Passing.{Passes};

use xc_data::{Name, NoMemory, Place, Private, Reply};
use xc_host::{Host, HostErr};

// Opens a name's file at the lowest vacant handle.
fn open_at<H: Host>(host: &mut H, me: &mut Private, name: &Name, h: u16) -> Result<Reply, NoMemory>
    requires vacant { lowest_vacant me.old.places ≡ Some h }
    requires handle { h < 256 }
    ensures passes { (number : ℕ) (undo : Records) → Passes H.model (XOpen name.now) (record {
      old = record { host = host.old; number = number; me = me.old; undo = undo };
      new = record { host = host.new; number = number; me = me.new; undo = undo };
    }) result }
    ensures contents { IsTrue H.model.tells → H.model.contents host.new ≡ H.model.contents host.old }
    ensures same { (me.new.stored ≡ me.old.stored) × (me.new.made ≡ me.old.made) }
    ensures now { IfOk result (λ reply. is_late reply ≡ false) }
{
    let num = match host.lookup(name) {
        Ok(Some(num)) => num,
        Ok(None) => return Ok(Reply::NoName),
        Err(HostErr::Fault) => return Ok(Reply::Fault(0)),
        Err(HostErr::NoMemory) => return Err(NoMemory),
    };
    me.set_place(h, Place::File { num, at: 0 });
    Ok(Reply::Made(h))
}

/// Opens a name's file at position 0.
pub fn x_open<H: Host>(host: &mut H, me: &mut Private, name: &Name) -> Result<Reply, NoMemory>
    ensures call { (number : ℕ) (undo : Records) → IsHostCall H.model (XOpen name.now)
        (record { host = host.old; number = number; me = me.old; undo = undo })
        (record { host = host.new; number = number; me = me.new; undo = undo }) result }
    ensures contents { IsTrue H.model.tells → H.model.contents host.new ≡ H.model.contents host.old }
    ensures same { (me.new.stored ≡ me.old.stored) × (me.new.made ≡ me.old.made) }
    ensures now { IfOk result (λ reply. is_late reply ≡ false) }
{
    let Some(h) = me.vacant() else {
        return Ok(Reply::TooMuch);
    };
    open_at(host, me, name, h)
}
