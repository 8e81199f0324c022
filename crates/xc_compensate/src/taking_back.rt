ghost use Rattle.std.specs.Prelude.{◌≡◌, ◌≤◌, false, IsTrue};
ghost use Rattle.std.specs.declared.option.Option.TheVariants.{None};
ghost use Rattle.xc_world.specs.Effects.{IsCovered};
ghost use Rattle.xc_world.specs.Ends.{IsLegalEnd};
ghost use Rattle.xc_world.specs.Trail.{undone};
ghost use Rattle.xc_host.specs.Cause.{without_memory};
ghost use Rattle.xc_host.specs.Contents.{contents_of, world_of};
ghost use Rattle.xc_host.specs.Model.{Answers};
ghost use Rattle.xc_host.specs.Uses.{back_kind};
ghost use Rattle.xc_compensate.specs.Records.{IsRecord, is_overwrite};
ghost use Rattle.xc_compensate.specs.Undoes.{Undoes};

use xc_data::{Undo, UndoEnd};
use xc_host::{Fault, Host};

// The one call of the host that undoes a record, but for overwrites.
fn call_back<H: Host>(host: &mut H, undo: &Undo) -> Result<(), Fault>
    requires record { IsRecord undo.now }
    requires one { is_overwrite undo.now ≡ false }
    requires covered { IsTrue H.model.tells → IsCovered (world_of (H.model.contents host.old)) undo.now }
    ensures answered { Answers H.model (back_kind undo.now) (record { old = host.old; new = host.new }) (without_memory result)
        (λ _ c. contents_of (undone (world_of c) undo.now)) }
{
    match undo {
        Undo::Append { file, from, .. } => host.cut(*file, *from),
        Undo::Create { name, num } => host.uncreate(name.value(), *num),
        Undo::Rename { from, to } => host.name_back(from.value(), to.value()),
        Undo::NewPipe(num) => host.drop_pipe(*num),
        Undo::NewPair(num) => host.drop_pair(*num),
        Undo::Overwrite { .. } => unreachable!(),
    }
}

/// Makes the one call that undoes a record until it is done or `tries` tries failed.
pub(crate) fn take_back<H: Host>(host: &mut H, undo: &Undo, tries: u32) -> UndoEnd
    requires tries { 1 ≤ tries }
    requires record { IsRecord undo.now }
    requires one { is_overwrite undo.now ≡ false }
    requires covered { IsTrue H.model.tells → IsCovered (world_of (H.model.contents host.old)) undo.now }
    ensures legal { IsLegalEnd tries undo.now result None }
    ensures undoes { Undoes H.model undo.now (record { old = host.old; new = host.new }) result }
{
    for faults in 0..tries {
        if call_back(host, undo).is_ok() {
            return UndoEnd::Undone { faults };
        }
    }
    UndoEnd::Failed {
        done: 0,
        faults: tries,
    }
}
