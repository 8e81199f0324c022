use xc_data::{Entry, Items, UndoEnd};
use xc_lines::{EffectShown, UndoKind};

/// An entry as its text shows it. Of a record that was undone a text has its kind and how it ended, and no bytes.
#[derive(Drop)]
pub struct Shown {
    /// The entry; a report has no records.
    pub entry: Entry,
    /// The records of the report, from the oldest on.
    pub records: Items<(UndoKind, UndoEnd)>,
    /// The effects that remain, from the oldest record on.
    pub effects: Items<EffectShown>,
}
