ghost use Rattle.std.specs.Prelude.{◌≡◌, ◌≤◌, ◌<◌, [], false, IfOk, OnErr, IsTrue};
ghost use Rattle.xc_data.specs.Calls.{is_late};
ghost use Rattle.xc_world.specs.Act.Names.{next_num};
ghost use Rattle.xc_data.specs.declared.call.Call.TheVariants.{XCreate};
ghost use Rattle.xc_host.specs.Uses.{Uses};
ghost use Rattle.xc_calls.specs.Calls.{IsHostCall, PassedBy};
ghost use Rattle.xc_file.specs.Checks.{IsNewIn};
ghost use Rattle.xc_file.specs.Naming.{CreatesOnce, IsAbsent, IsCreate, with_file_made};

use xc_compensate::Stack;
use xc_data::{MOST_MADE, NoMemory, Num, Place, Private, Reply, SharedName, Undo};
use xc_host::{Host, HostErr};

// Makes a file under a name that is absent. The record of it is there before.
fn create_recorded<H: Host>(
    host: &mut H,
    me: &Private,
    undo: &mut Stack,
    tx: u32,
    name: &SharedName,
    h: u16,
) -> Result<Reply, NoMemory>
    requires absent { IsTrue H.model.tells → IsAbsent (H.model.contents host.old) name.now }
    requires new { IsTrue H.model.tells → IsNewIn (H.model.contents host.old) me.now tx }
    requires none { undo.old.ended ≡ [] }
    ensures create { IsCreate H.model name.now h (record {
      old = record { host = host.old; number = tx; me = me.now; undo = undo.old };
      new = record { host = host.new; number = tx; me = me.now; undo = undo.new };
    }) result }
    ensures uses { Uses H.model (record { old = host.old; new = host.new }) (CreatesOnce result) }
{
    let num = Num { tx, k: me.made };
    undo.push(Undo::Create {
        name: name.again(),
        num,
    })?;
    let created = host.create(name.value(), num);
    if created.is_err() {
        undo.trim(0);
    }
    match created {
        Ok(()) => Ok(Reply::Made(h)),
        Err(HostErr::Fault) => Ok(Reply::Fault(0)),
        Err(HostErr::NoMemory) => Err(NoMemory),
    }
}

// Makes a file under a name, unless the name is there.
fn create<H: Host>(
    host: &mut H,
    me: &Private,
    undo: &mut Stack,
    tx: u32,
    name: &SharedName,
    h: u16,
) -> Result<Reply, NoMemory>
    requires new { IsTrue H.model.tells → IsNewIn (H.model.contents host.old) me.now tx }
    requires none { undo.old.ended ≡ [] }
    ensures create { IsCreate H.model name.now h (record {
      old = record { host = host.old; number = tx; me = me.now; undo = undo.old };
      new = record { host = host.new; number = tx; me = me.now; undo = undo.new };
    }) result }
    ensures uses { Uses H.model (record { old = host.old; new = host.new }) (PassedBy (XCreate name.now) result) }
{
    match host.lookup(name.value()) {
        Ok(None) => create_recorded(host, me, undo, tx, name, h),
        Ok(Some(_)) => Ok(Reply::Exists),
        Err(HostErr::Fault) => Ok(Reply::Fault(0)),
        Err(HostErr::NoMemory) => Err(NoMemory),
    }
}

// Makes a file under a name, at a vacant handle.
fn create_at<H: Host>(
    host: &mut H,
    me: &mut Private,
    undo: &mut Stack,
    tx: u32,
    name: &SharedName,
    h: u16,
) -> Result<Reply, NoMemory>
    requires few { me.old.made < 16 }
    requires handle { h < 256 }
    requires new { IsTrue H.model.tells → IsNewIn (H.model.contents host.old) me.old tx }
    requires none { undo.old.ended ≡ [] }
    ensures create { IsCreate H.model name.now h (record {
      old = record { host = host.old; number = tx; me = me.old; undo = undo.old };
      new = record { host = host.new; number = tx; me = me.new; undo = undo.new };
    }) result }
    ensures me { IfOk result (λ reply. me.new ≡ with_file_made me.old h (next_num me.old tx) reply) }
    ensures err { OnErr result (me.new ≡ me.old) }
    ensures uses { Uses H.model (record { old = host.old; new = host.new }) (PassedBy (XCreate name.now) result) }
{
    let num = Num { tx, k: me.made };
    let reply = create(host, me, undo, tx, name, h)?;
    if let Reply::Made(_) = reply {
        me.set_place(h, Place::File { num, at: 0 });
        me.made += 1;
    }
    Ok(reply)
}

/// Makes an empty file under a name that must be absent, and opens it. Its record is pushed before the
/// host's create.
pub fn x_create<H: Host>(
    host: &mut H,
    me: &mut Private,
    undo: &mut Stack,
    tx: u32,
    name: &SharedName,
) -> Result<Reply, NoMemory>
    requires new { IsTrue H.model.tells → IsNewIn (H.model.contents host.old) me.old tx }
    requires none { undo.old.ended ≡ [] }
    ensures call { IsHostCall H.model (XCreate name.now)
        (record { host = host.old; number = tx; me = me.old; undo = undo.old })
        (record { host = host.new; number = tx; me = me.new; undo = undo.new }) result }
    ensures stored { me.new.stored ≡ me.old.stored }
    ensures made { me.old.made ≤ 16 → me.new.made ≤ 16 }
    ensures now { IfOk result (λ reply. is_late reply ≡ false) }
{
    if me.made >= MOST_MADE {
        return Ok(Reply::TooMuch);
    }
    let Some(h) = me.vacant() else {
        return Ok(Reply::TooMuch);
    };
    create_at(host, me, undo, tx, name, h)
}
