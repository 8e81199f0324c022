//! Data that is given back to pipes and pairs, beside steps that don't speak of these.
ghost use Rattle.std.specs.Prelude.{◌≡◌, ℕ, List, false, length};
ghost use Rattle.xc_data.specs.declared.call.Call.{Call};
ghost use Rattle.xc_data.specs.declared.call.Answer.{Answer};
ghost use Rattle.xc_data.specs.declared.call.LateCall.{LateCall};
ghost use Rattle.xc_data.specs.declared.call.LateAnswer.{LateAnswer};
ghost use Rattle.xc_data.specs.declared.entry.KeptItem.{KeptItem};
ghost use Rattle.xc_data.specs.declared.private.Private.{Private};
ghost use Rattle.xc_data.specs.declared.undo.Undo.{Undo};
ghost use Rattle.xc_data.specs.declared.undo.UndoEnd.{UndoEnd};
ghost use Rattle.xc_data.specs.Remaining.{objects_of};
ghost use Rattle.xc_world.specs.World.{World};
ghost use Rattle.xc_world.specs.Act.{act};
ghost use Rattle.xc_world.specs.Beside.{AreElsewhere, end_with_given, is_on_data, spoken_of, with_given};
ghost use Rattle.xc_world.specs.Effects.{undone_to};
ghost use Rattle.xc_world.specs.Late.{late};
ghost use Rattle.xc_world.specs.Laws.{late_objects};
ghost use Rattle.xc_world.specs.Run.{given_back};

/// A call does the same where data was given back to objects that it doesn't speak of, and leaves that data alone.
pub fn a_call_goes_on_beside_what_was_given_back()
    ensures { (w : World) (items : List KeptItem) (me : Private) (tx : ℕ) (call : Call) (answer : Answer)
        → AreElsewhere (spoken_of call me tx (length w.words)) items
        → act (given_back w items) me tx call answer ≡ with_given (act w me tx call answer) items }
{}

/// A call on words, names and files speaks of no pipe and no pair, so that holds of it whatever was given back.
pub fn a_call_on_files_speaks_of_no_data()
    ensures { (me : Private) (tx words : ℕ) (call : Call) (items : List KeptItem) → is_on_data call ≡ false
        → AreElsewhere (spoken_of call me tx words) items }
{}

/// The same for a late call.
pub fn a_late_call_goes_on_beside_what_was_given_back()
    ensures { (w : World) (items : List KeptItem) (call : LateCall) (answer : LateAnswer) → AreElsewhere (late_objects call) items
        → late (given_back w items) call answer ≡ end_with_given (late w call answer) items }
{}

/// And for a compensation.
pub fn a_compensation_goes_on_beside_what_was_given_back()
    ensures { (w : World) (items : List KeptItem) (u : Undo) (end : UndoEnd) → AreElsewhere (objects_of u) items
        → undone_to (given_back w items) u end ≡ given_back (undone_to w u end) items }
{}
