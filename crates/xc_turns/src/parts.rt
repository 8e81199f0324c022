ghost use Rattle.std.specs.Prelude.{List};
ghost use Rattle.xc_data.specs.declared.entry.Entry.{Entry};
ghost use Rattle.xc_model.specs.Joint.{IsJointJournal};
ghost use Rattle.xc_model.specs.Setting.{Setting};
ghost use Rattle.xc_model.specs.Truth.{IsTrueJournal};

/// A journal that is true as a station keeps it, both parts of an entry at once, is true of the machine and asked by the script;
/// and one that is both is true as a station keeps it.
pub fn a_true_journal_is_of_the_machine_and_of_the_script()
    ensures parts { (s : Setting) (journal : List Entry) → IsJointJournal s journal → IsTrueJournal s journal }
    ensures whole { (s : Setting) (journal : List Entry) → IsTrueJournal s journal → IsJointJournal s journal }
{}
