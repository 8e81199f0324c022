ghost use Rattle.std.specs.Prelude.{◌≡◌, ◌↔◌, ◌&&◌, ◌++◌, ℕ, List, [], ◌∷◌, All, Contains, length};
ghost use Rattle.xc_data.specs.declared.object.Object.{Object};
ghost use Rattle.xc_data.specs.declared.call.Call.{Call};
ghost use Rattle.xc_data.specs.declared.call.Answer.{Answer};
ghost use Rattle.xc_data.specs.declared.call.LateCall.{LateCall};
ghost use Rattle.xc_data.specs.declared.call.LateAnswer.{LateAnswer};
ghost use Rattle.xc_data.specs.declared.call.LateEnd.{LateEnd};
ghost use Rattle.xc_data.specs.declared.undo.Undo.{Undo};
ghost use Rattle.xc_data.specs.declared.undo.UndoEnd.{UndoEnd};
ghost use Rattle.xc_data.specs.declared.private.Private.{Private};
ghost use Rattle.xc_data.specs.Remaining.{objects_of};
ghost use Rattle.xc_world.specs.World.{World};
ghost use Rattle.xc_world.specs.Act.{act};
ghost use Rattle.xc_world.specs.Fits.{fits};
ghost use Rattle.xc_world.specs.Sound.{IsFree, IsSound};
ghost use Rattle.xc_world.specs.Touch.{touch, made_by};
ghost use Rattle.xc_world.specs.Trail.{recorded};
ghost use Rattle.xc_world.specs.Ends.{with_remains};
ghost use Rattle.xc_world.specs.Effects.{undone_to};
ghost use Rattle.xc_world.specs.Late.{late};
ghost use Rattle.xc_world.specs.Trail.{undone, with_effect};
ghost use Rattle.xc_world.specs.Fits.{late_fits};
ghost use Rattle.xc_world.specs.Laws.{AgreeAt, GoAlike, late_objects};
ghost use Rattle.xc_data.specs.declared.call.CallWithAnswer.{CallWithAnswer};
ghost use Rattle.xc_data.specs.declared.claim.Claim.{Claim};
ghost use Rattle.xc_data.specs.declared.claim.Mode.TheVariants.{Shared};
ghost use Rattle.xc_data.specs.Claims.{AreOnceAtMost, held_of, objects, owned};
ghost use Rattle.xc_world.specs.Modes.{mode_of};
ghost use Rattle.xc_world.specs.Run.{plain_body, block_step, body_state, body, body_fits, run, run_fits};
ghost use Rattle.xc_world.specs.Joined.{behind};
ghost use Rattle.xc_world.specs.Own.{AgreeOn, IsNumbered, KeepsBut, Owns, Sees, RanAlike, RunAlike, SpeaksOfOwn, late_changes};

/// A call that touches its objects in the shared mode leaves the world as it was.
pub fn a_reading_call_changes_nothing()
    ensures { (w : World) (me : Private) (tx : ℕ) (call : Call) (answer : Answer) → mode_of call ≡ Shared
        → (act w me tx call answer).world ≡ w }
{}

/// Which answers fit a call depends on what it touches and makes alone.
pub fn what_fits_a_call_is_local()
    ensures { (w v : World) (me : Private) (tx : ℕ) (call : Call) (answer : Answer) → length w.words ≡ length v.words
        → All (AgreeAt w v) (touch call me (length w.words) ++ made_by call me tx) → fits w me tx call answer ≡ fits v me tx call answer }
{}

/// So does the record of its reply.
pub fn the_record_of_a_call_is_local()
    ensures { (w v : World) (me : Private) (tx : ℕ) (call : Call) (answer : Answer) → All (AgreeAt w v) (touch call me (length w.words))
        → recorded w me tx call (act w me tx call answer).reply ≡ recorded v me tx call (act w me tx call answer).reply }
{}

/// Whatever else two worlds hold: where they agree on what a body touches, and on what has its
/// transaction's number, it gives the same in both, they agree on that afterwards, and in both it
/// changes nothing but what it touches exclusively or has that number.
pub fn a_body_is_local()
    ensures { (w v : World) (me : Private) (tx : ℕ) (asked : List CallWithAnswer) → length w.words ≡ length v.words
        → All (AgreeAt w v) (objects (body w me tx asked).touched) → AgreeOn (IsNumbered tx) w v
        → RanAlike tx w v (body w me tx asked) (body v me tx asked) }
{}

/// They do agree on that where nothing has the number yet in either world.
pub fn worlds_without_a_number_agree_there()
    ensures { (tx : ℕ) (w v : World) → ((k : ℕ) → IsFree w (record { tx = tx; k = k })) → ((k : ℕ) → IsFree v (record { tx = tx; k = k }))
        → AgreeOn (IsNumbered tx) w v }
{}

/// The same answers fit the body in both.
pub fn what_fits_a_body_is_local()
    ensures { (w v : World) (me : Private) (tx : ℕ) (asked : List CallWithAnswer) → length w.words ≡ length v.words
        → All (AgreeAt w v) (objects (body w me tx asked).touched) → AgreeOn (IsNumbered tx) w v
        → body_fits w me tx asked ≡ body_fits v me tx asked }
{}

/// A body changes nothing but what it touches exclusively or has its transaction's number.
pub fn a_body_changes_its_own_alone()
    ensures { (w : World) (me : Private) (tx : ℕ) (asked : List CallWithAnswer)
        → KeepsBut (Owns tx (body w me tx asked).touched) w (body w me tx asked).world }
{}

/// The records that a body leaves speak of what it touches exclusively or what has its number
/// alone, and so do its late calls, but for a sync, which speaks of what it touches.
pub fn what_a_body_leaves_speaks_of_its_own()
    ensures { (w : World) (me : Private) (tx : ℕ) (asked : List CallWithAnswer) → SpeaksOfOwn tx (body w me tx asked) }
{}

/// A whole run is local as its body is, where both worlds know the same blocks.
pub fn a_run_is_local()
    ensures { (w v : World) (me : Private) (tx : ℕ) (asked : List CallWithAnswer) (ends : List LateEnd) → length w.words ≡ length v.words
        → w.blocks ≡ v.blocks
        → All (AgreeAt w v) (objects (body w me tx asked).touched) → AgreeOn (IsNumbered tx) w v
        → RunAlike tx w v (run w me tx asked ends) (run v me tx asked ends) }
{}

/// The same answers fit the run in both.
pub fn what_fits_a_run_is_local()
    ensures { (w v : World) (me : Private) (tx : ℕ) (asked : List CallWithAnswer) (ends : List LateEnd) → length w.words ≡ length v.words
        → w.blocks ≡ v.blocks
        → All (AgreeAt w v) (objects (body w me tx asked).touched) → AgreeOn (IsNumbered tx) w v
        → run_fits w me tx asked ends ≡ run_fits v me tx asked ends }
{}

/// A late call changes its object alone, and a sync nothing.
pub fn a_late_call_changes_its_object_alone()
    ensures { (w : World) (call : LateCall) (answer : LateAnswer) → KeepsBut (Contains (late_changes call)) w (late w call answer).world }
{}

/// Which answers fit a late call depends on its object alone.
pub fn what_fits_a_late_call_is_local()
    ensures { (w v : World) (call : LateCall) (answer : LateAnswer) → All (AgreeAt w v) (late_objects call)
        → late_fits w call answer ≡ late_fits v call answer }
{}

/// What stands of a record depends on its objects and changes no other.
pub fn an_effect_is_local()
    ensures { (w v : World) (u : Undo) (k : ℕ) → All (AgreeAt w v) (objects_of u)
        → GoAlike (objects_of u) w v (with_effect w u k) (with_effect v u k) }
{}

/// So does its undoing.
pub fn an_undoing_is_local()
    ensures { (w v : World) (u : Undo) → All (AgreeAt w v) (objects_of u) → GoAlike (objects_of u) w v (undone w u) (undone v u) }
{}

/// And what its compensation did, however that ended.
pub fn a_compensation_is_local()
    ensures { (w v : World) (u : Undo) (end : UndoEnd) → All (AgreeAt w v) (objects_of u)
        → GoAlike (objects_of u) w v (undone_to w u end) (undone_to v u end) }
{}

/// All that remains of records that speak of a transaction's own objects: two worlds that agree on
/// these agree on them afterwards.
pub fn what_remains_is_local()
    ensures { (tx : ℕ) (claims : List Claim) (w v : World) (records : List (Undo × ℕ))
        → All (λ u. All (Owns tx claims) (objects_of u.0)) records → AgreeOn (Owns tx claims) w v
        → AgreeOn (Owns tx claims) (with_remains w records) (with_remains v records) }
{}

/// And nothing else changes.
pub fn what_remains_changes_its_objects_alone()
    ensures { (tx : ℕ) (claims : List Claim) (w : World) (records : List (Undo × ℕ))
        → All (λ u. All (Owns tx claims) (objects_of u.0)) records
        → KeepsBut (Owns tx claims) w (with_remains w records) }
{}

/// One call more is one step more.
pub fn a_call_more_is_a_step_more()
    ensures { (w : World) (me : Private) (tx : ℕ) (asked : List CallWithAnswer) (call : CallWithAnswer)
        → body_state w me tx (asked ++ call ∷ []) ≡ block_step tx (body_state w me tx asked) call }
{}

/// What fits a body of a call more: what fits the body, and an answer that fits after it.
pub fn what_fits_a_call_more()
    ensures { (w : World) (me : Private) (tx : ℕ) (asked : List CallWithAnswer) (call : CallWithAnswer)
        → body_fits w me tx (asked ++ call ∷ [])
        ≡ (body_fits w me tx asked && fits (body w me tx asked).world (body w me tx asked).me tx call.call call.answer) }
{}

/// Calls that open and close no block, in two parts, are the first with the second after it, which begins where the first ended.
pub fn a_body_in_two_parts()
    ensures { (w : World) (me : Private) (tx : ℕ) (front rest : List CallWithAnswer)
        → plain_body w me tx (front ++ rest)
        ≡ behind (plain_body w me tx front) (plain_body (plain_body w me tx front).world (plain_body w me tx front).me tx rest) }
{}

/// What is held are the objects that were claimed.
pub fn what_is_held_was_claimed()
    ensures { (claims : List Claim) (o : Object) → Contains (objects (held_of claims)) o ↔ Contains (objects claims) o }
{}

/// Each is held once.
pub fn each_is_held_once()
    ensures { (claims : List Claim) → AreOnceAtMost (objects (held_of claims)) }
{}

/// And those are held exclusively that were claimed so at some time.
pub fn what_is_held_exclusively_was_claimed_so()
    ensures { (claims : List Claim) (o : Object) → Contains (owned (held_of claims)) o ↔ Contains (owned claims) o }
{}

/// A body from its transaction's begin, in two sound worlds that agree on what it touches.
pub fn a_body_from_its_begin_is_local()
    ensures { (w v : World) (me : Private) (tx : ℕ) (asked : List CallWithAnswer) → IsSound w me tx → IsSound v me tx → me.made ≡ 0
        → length w.words ≡ length v.words
        → All (AgreeAt w v) (objects (body w me tx asked).touched) → RanAlike tx w v (body w me tx asked) (body v me tx asked) }
{}

/// A run of another transaction that owns nothing which a body sees leaves that body as it was.
pub fn a_run_leaves_the_bodies_of_others()
    ensures { (w : World) (me you : Private) (tx ty : ℕ) (asked others : List CallWithAnswer) (ends : List LateEnd)
        → ((o : Object) → Sees tx (body w me tx asked).touched o → Owns ty (body w you ty others).touched o → ⊥)
        → RanAlike tx w (run w you ty others ends).late.world (body w me tx asked)
        (body (run w you ty others ends).late.world me tx asked) }
{}
