ghost use Rattle.std.specs.Prelude.{◌≡◌, ℕ, [], false, IfOk, IsTrue};
ghost use Rattle.xc_data.specs.Calls.{is_late};
ghost use Rattle.xc_data.specs.declared.call.Call.TheVariants.{XRename};
ghost use Rattle.xc_data.specs.declared.private.Private.{Private};
ghost use Rattle.xc_host.specs.Uses.{Uses};
ghost use Rattle.xc_calls.specs.Calls.{IsHostCall, PassedBy};
ghost use Rattle.xc_file.specs.Naming.{IsAbsent, NamesFile, IsRename, RenamesOnce};

use xc_compensate::Stack;
use xc_data::{NoMemory, Reply, SharedName, Undo};
use xc_host::{Host, HostErr};

// Gives a file another name, which is absent. The record of it is there before.
fn rename_recorded<H: Host>(
    host: &mut H,
    undo: &mut Stack,
    from: &SharedName,
    to: &SharedName,
) -> Result<Reply, NoMemory>
    requires there { IsTrue H.model.tells → NamesFile (H.model.contents host.old) from.now }
    requires absent { IsTrue H.model.tells → IsAbsent (H.model.contents host.old) to.now }
    requires none { undo.old.ended ≡ [] }
    ensures uses { Uses H.model (record { old = host.old; new = host.new }) (RenamesOnce result) }
    ensures rename { IsRename H.model from.now to.now (record {
      old = record { host = host.old; undo = undo.old };
      new = record { host = host.new; undo = undo.new };
    }) result }
{
    let record = Undo::Rename {
        from: from.again(),
        to: to.again(),
    };
    undo.push(record)?;
    if host.rename(from.value(), to.value()).is_err() {
        undo.trim(0);
        return Ok(Reply::Fault(0));
    }
    Ok(Reply::Done)
}

// Gives a name's file another that is absent.
fn rename<H: Host>(
    host: &mut H,
    undo: &mut Stack,
    from: &SharedName,
    to: &SharedName,
) -> Result<Reply, NoMemory>
    requires none { undo.old.ended ≡ [] }
    ensures uses { Uses H.model (record { old = host.old; new = host.new }) (PassedBy (XRename from.now to.now) result) }
    ensures rename { IsRename H.model from.now to.now (record {
      old = record { host = host.old; undo = undo.old };
      new = record { host = host.new; undo = undo.new };
    }) result }
{
    match host.lookup(from.value()) {
        Ok(Some(_)) => {}
        Ok(None) => return Ok(Reply::NoName),
        Err(HostErr::Fault) => return Ok(Reply::Fault(0)),
        Err(HostErr::NoMemory) => return Err(NoMemory),
    }
    match host.lookup(to.value()) {
        Ok(None) => rename_recorded(host, undo, from, to),
        Ok(Some(_)) => Ok(Reply::Exists),
        Err(HostErr::Fault) => Ok(Reply::Fault(0)),
        Err(HostErr::NoMemory) => Err(NoMemory),
    }
}

/// Gives a name's file another name, which must be absent. Its record is pushed before the host's rename.
pub fn x_rename<H: Host>(
    host: &mut H,
    undo: &mut Stack,
    from: &SharedName,
    to: &SharedName,
) -> Result<Reply, NoMemory>
    requires none { undo.old.ended ≡ [] }
    ensures call { (number : ℕ) (me : Private) → IsHostCall H.model (XRename from.now to.now)
        (record { host = host.old; number = number; me = me; undo = undo.old })
        (record { host = host.new; number = number; me = me; undo = undo.new }) result }
    ensures now { IfOk result (λ reply. is_late reply ≡ false) }
{
    rename(host, undo, from, to)
}
