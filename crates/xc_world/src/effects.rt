ghost use Rattle.std.specs.declared.option.Option.TheVariants.{None, Some};
ghost use Rattle.std.specs.Prelude.{◌≡◌, ◌≢◌, ℕ, ◌+◌, false, List, [], ◌∷◌, ◌++◌, length, map, All, IsTrue};
ghost use Rattle.xc_data.specs.declared.call.Call.{Call};
ghost use Rattle.xc_data.specs.declared.call.Answer.{Answer};
ghost use Rattle.xc_data.specs.declared.undo.Undo.{Undo};
ghost use Rattle.xc_data.specs.declared.undo.UndoEnd.{UndoEnd};
ghost use Rattle.xc_data.specs.declared.private.Private.{Private};
ghost use Rattle.xc_world.specs.World.{World};
ghost use Rattle.xc_data.specs.declared.call.CallWithAnswer.{CallWithAnswer};
ghost use Rattle.xc_world.specs.Act.{act};
ghost use Rattle.xc_world.specs.Sound.{IsSound};
ghost use Rattle.xc_world.specs.Run.{BodyResult, body_state, body, body_fits, given_back};
ghost use Rattle.xc_world.specs.Inner.{IsInnerBlock};
ghost use Rattle.xc_world.specs.Trail.{recorded};
ghost use Rattle.xc_world.specs.Ends.{Ending, blocker, IsLegalEnd, remains, with_remains};
ghost use Rattle.xc_world.specs.Effects.{whole, takes_data, AreMadeIn, SparesNew, undone_to, IsCovered};

/// Outside the words, the effects of its records are all that a call does, unless it takes bytes or
/// a message.
pub fn a_call_has_the_effects_of_its_records()
    ensures { (w : World) (me : Private) (tx : ℕ) (call : Call) (answer : Answer) → takes_data call ≡ false
        → (act w me tx call answer).world ≡ record (with_remains w (whole (recorded w me tx call (act w me tx call answer).reply)))
        { words = (act w me tx call answer).world.words } }
{}

/// Outside the words, a body's world with all that it took given back is its begin with the effects
/// of its records.
pub fn a_body_has_the_effects_of_its_records()
    ensures { (w : World) (me : Private) (tx : ℕ) (asked : List CallWithAnswer) → IsSound w me tx → IsTrue (body_fits w me tx asked)
        → given_back (body w me tx asked).world (body w me tx asked).taken
        ≡ record (with_remains w (whole (body w me tx asked).trail)) { words = (body w me tx asked).world.words } }
{}

/// Each record of a body was made in the world that the ones before it left.
pub fn a_body_leaves_a_trail()
    ensures { (w : World) (me : Private) (tx : ℕ) (asked : List CallWithAnswer) → IsSound w me tx → IsTrue (body_fits w me tx asked)
        → AreMadeIn w (body w me tx asked).trail }
{}

/// A compensation with a legal end leaves what remains with that end: as if the record had not been
/// made, or only so much of it, whatever newer records still stand.
pub fn a_record_is_undone()
    ensures { (w : World) (older : List Undo) (u : Undo) (newer : List Ending) (tries : ℕ) (end : UndoEnd)
        → AreMadeIn w (older ++ u ∷ map (λ r. r.0) newer)
        → IsLegalEnd tries u end (blocker (length older + 1 + 1) u newer)
        → undone_to (with_remains w (whole (older ++ u ∷ []) ++ remains newer)) u end
        ≡ with_remains w (whole older ++ remains ((u, end) ∷ newer)) }
{}

/// What the newest record tells of that still stands whole is as it left it, however the newer ones
/// ended, where none of them stands in its way.
pub fn the_newest_record_is_covered()
    ensures { (w : World) (older : List Undo) (u : Undo) (newer : List Ending)
        → AreMadeIn w (older ++ u ∷ map (λ r. r.0) newer) → blocker (length older + 1 + 1) u newer ≡ None
        → IsCovered (with_remains w (whole (older ++ u ∷ []) ++ remains newer)) u }
{}

/// Whatever remains of them, records leave a sound world sound for a private state that is to make
/// none of their new objects.
pub fn what_remains_is_sound()
    ensures { (w : World) (me : Private) (tx : ℕ) (records : List Ending) → AreMadeIn w (map (λ r. r.0) records)
        → All (SparesNew me tx) (map (λ r. r.0) records) → IsSound w me tx
        → IsSound (with_remains w (remains records)) me tx }
{}

/// A body with answers that fit keeps a world and its private state sound.
pub fn a_body_keeps_all_sound()
    ensures { (w : World) (me : Private) (tx : ℕ) (asked : List CallWithAnswer) → IsSound w me tx → IsTrue (body_fits w me tx asked)
        → IsSound (body w me tx asked).world (body w me tx asked).me tx }
{}

/// It keeps every other transaction's private state sound too.
pub fn a_body_keeps_others_sound()
    ensures { (w : World) (me you : Private) (tx ty : ℕ) (asked : List CallWithAnswer) → IsSound w me tx → IsTrue (body_fits w me tx asked)
        → IsSound w you ty → (ty ≢ tx)
        → IsSound (body w me tx asked).world you ty }
{}

/// What an open block took and recorded since its save, on the save's world.
pub fn a_block_has_the_effects_of_its_records()
    ensures { (w : World) (me : Private) (tx : ℕ) (asked : List CallWithAnswer) → IsSound w me tx → IsTrue (body_fits w me tx asked)
        → (saved : BodyResult) → (body_state w me tx asked).saved ≡ Some saved → IsInnerBlock w saved (body w me tx asked) }
{}
