ghost use Rattle.std.specs.Prelude.{◌≡◌, ◌∷◌, [], OnOk};
ghost use Rattle.xc_world.specs.Ends.{remains, with_remains};

use crate::World;
use xc_data::{NoMemory, Undo, UndoEnd};
use xc_world::remaining_from;

// What remains of a record.
fn put_one(world: &mut World, undo: &Undo, end: &UndoEnd) -> Result<(), NoMemory>
    ensures { OnOk result (world.new ≡ with_remains world.old (remains ((undo.now, end.now) ∷ []))) }
{
    match remaining_from(undo, end) {
        Some(from) => world.put_effect(undo, from),
        None => Ok(()),
    }
}

/// Puts into the world what remains of records.
pub fn put_remains(world: &mut World, records: &[(Undo, UndoEnd)]) -> Result<(), NoMemory>
    ensures { OnOk result (world.new ≡ with_remains world.old (remains records.now)) }
{
    for ended in records {
        put_one(world, &ended.0, &ended.1)?;
    }
    Ok(())
}
