ghost use Rattle.std.specs.Prelude.{ℕ, ◌≤◌, List};
ghost use Rattle.xc_data.specs.declared.entry.JobLine.{JobLine};
ghost use Rattle.xc_data.specs.declared.entry.Turn.{Turn};
ghost use Rattle.xc_text.specs.declared.script.Script.{Script};
ghost use Rattle.xc_model.specs.Live.{IsScripted};
ghost use Rattle.xc_model.specs.Setting.{Setting};
ghost use Rattle.xc_model.specs.Moment.{TxView, Moment};
ghost use Rattle.xc_model.specs.Rows.{IsTurn};
ghost use Rattle.xc_model.specs.Movers.{IsActiveAt};
ghost use Rattle.xc_model.specs.Opened.{IsOpening};
ghost use Rattle.xc_model.specs.Alone.{AreAlone};
ghost use Rattle.xc_model.specs.Ending.{StopWhereFull};
ghost use Rattle.xc_model.specs.Consistent.{AreLinesOf};

/// A turn of the one job of a script that goes on keeps transactions one after another, and none is of a job after one that
/// found the journal full.
pub fn a_turn_alone_keeps_the_order()
    ensures turn { (s : Setting) (at : ℕ) (old new : Moment) (answer : Turn) → IsScripted s.script → IsTurn s at old answer new
        → AreAlone old at → AreAlone new at }
    ensures start { (script : Script) (now : Moment) → IsOpening script now → AreAlone now 0 }
    ensures later { (now : Moment) (at later : ℕ) → AreAlone now at → ((tx : TxView) → IsActiveAt now.jobs at tx → ⊥) → at ≤ later
        → AreAlone now later }
    ensures stops { (now : Moment) (at : ℕ) (lines : List JobLine) → AreAlone now at → AreLinesOf now.jobs lines
        → StopWhereFull lines now.journal }
{}
