ghost use Rattle.std.specs.Prelude.{◌≡◌, ℕ, List};
ghost use Rattle.xc_data.specs.Remaining.{remains_from, leaves};
ghost use Rattle.std.specs.List.{list_any};
ghost use Rattle.xc_world.specs.Ends.{AreLegal, Ending};
ghost use Rattle.xc_world.specs.Remains.{effect_remains};

use xc_data::{Undo, UndoEnd};

/// The byte of a record from which on its effect remains: none exactly where it is undone, the number of restored bytes for an
/// overwrite that was restored in part, and 0 for every other record. It takes no memory.
pub fn remaining_from(undo: &Undo, end: &UndoEnd) -> Option<u32>
    ensures { result ≡ remains_from undo.now end.now }
{
    match end {
        UndoEnd::Undone { .. } => None,
        UndoEnd::Blocked { .. } => Some(0),
        UndoEnd::Failed { done, .. } => match undo {
            Undo::Overwrite { .. } => Some(*done),
            Undo::Append { .. } | Undo::Create { .. } | Undo::Rename { .. } => Some(0),
            Undo::NewPipe(_) | Undo::NewPair(_) => Some(0),
        },
    }
}

/// Where the ends of a report's records are legal, `Report::remains` is true exactly where `remaining_from` has a byte for some
/// record. Without legal ends they may differ: of an overwrite that failed with all of its bytes restored nothing remains.
pub fn a_report_remains_exactly_where_an_effect_stands()
    ensures { (tries from : ℕ) (records : List Ending) → AreLegal tries from records
        → list_any leaves records ≡ list_any effect_remains records }
{}
