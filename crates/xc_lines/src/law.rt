ghost use Rattle.std.specs.Prelude.{◌≡◌, ◌^◌, ◌≤◌, ◌++◌, ◌∷◌, List, ℕ, length, codes, Some};
ghost use Rattle.xc_data.specs.declared.call.Call.{Call};
ghost use Rattle.xc_data.specs.declared.call.LateEnd.{LateEnd};
ghost use Rattle.xc_data.specs.declared.call.Reply.{Reply};
ghost use Rattle.xc_data.specs.declared.claim.Claim.{Claim};
ghost use Rattle.xc_data.specs.declared.entry.KeptItem.{KeptItem};
ghost use Rattle.xc_data.specs.declared.undo.UndoEnd.{UndoEnd};
ghost use Rattle.xc_print.specs.Calls.{call_text};
ghost use Rattle.xc_print.specs.Objects.{claim_text, further_claims};
ghost use Rattle.xc_print.specs.Records.{undo_end_text};
ghost use Rattle.xc_print.specs.Replies.{reply_text, late_end_text};
ghost use Rattle.xc_lines.specs.declared.heads.Head.{Head};
ghost use Rattle.xc_lines.specs.declared.shown.JobShown.{JobShown};
ghost use Rattle.xc_lines.specs.declared.shown.EffectShown.{EffectShown};
ghost use Rattle.xc_lines.specs.declared.shown.UndoKind.{UndoKind};
ghost use Rattle.xc_lines.specs.Calls.{call_at};
ghost use Rattle.xc_lines.specs.Heads.{head_at, head_text};
ghost use Rattle.xc_lines.specs.Held.{claim_at, further_at};
ghost use Rattle.xc_lines.specs.Ranges.{IsCallInRange, IsReplyInRange, IsLateEndInRange, IsHeadInRange, IsObjectInRange};
ghost use Rattle.xc_lines.specs.Ranges.{AreClaimsInRange, IsUndoEndInRange, IsStandingInRange, IsItemInRange};
ghost use Rattle.xc_lines.specs.Replies.{reply_at, late_end_at};
ghost use Rattle.xc_lines.specs.Tails.{kind_at, kind_name, undo_end_at, standing_at, standing_text, job_end_at, job_end_name};
ghost use Rattle.xc_lines.specs.Tails.{kept_at, kept_text};

/// A call that was printed before its equals sign is read again, and so are the other parts of a line, each before what stands
/// behind it there.
pub fn what_is_printed_is_read()
    ensures call { (call : Call) (rest : List ℕ) → IsCallInRange call
        → call_at (call_text call ++ (codes " = " ++ rest)) ≡ Some (call, codes " = " ++ rest) }
    ensures reply { (reply : Reply) (rest : List ℕ) → IsReplyInRange reply
        → reply_at (reply_text reply ++ 10 ∷ rest) ≡ Some (reply, 10 ∷ rest) }
    ensures late { (end : LateEnd) (rest : List ℕ) → IsLateEndInRange end
        → late_end_at (late_end_text end ++ 10 ∷ rest) ≡ Some (end, 10 ∷ rest) }
    ensures head { (head : Head) (rest : List ℕ) → IsHeadInRange head → head_at (head_text head ++ rest) ≡ Some (head, rest) }
    ensures kept { (kept : KeptItem) (rest : List ℕ) → IsItemInRange kept → kept_at (kept_text kept ++ 10 ∷ rest) ≡ Some (kept, 10 ∷ rest) }
    ensures job { (end : JobShown) (rest : List ℕ) → job_end_at (job_end_name end ++ 10 ∷ rest) ≡ Some (end, 10 ∷ rest) }
{}

/// The same of the parts of an abort's lines.
pub fn what_is_printed_of_an_abort_is_read()
    ensures kind { (kind : UndoKind) (rest : List ℕ) → kind_at (kind_name kind ++ rest) ≡ Some (kind, rest) }
    ensures undo { (end : UndoEnd) (rest : List ℕ) → IsUndoEndInRange end
        → undo_end_at (undo_end_text end ++ 10 ∷ rest) ≡ Some (end, 10 ∷ rest) }
    ensures effect { (effect : EffectShown) (rest : List ℕ) → IsStandingInRange effect
        → standing_at (standing_text effect ++ 10 ∷ rest) ≡ Some (effect, 10 ∷ rest) }
{}

/// The same of held objects: the first, before the others, and the others before the line's end.
pub fn what_is_printed_of_claims_is_read()
    ensures first { (claim : Claim) (claims : List Claim) (rest : List ℕ) → IsObjectInRange claim.object
        → claim_at (claim_text claim ++ (further_claims claims ++ 10 ∷ rest)) ≡ Some (claim, further_claims claims ++ 10 ∷ rest) }
    ensures others { (claims : List Claim) (most : ℕ) (rest : List ℕ) → AreClaimsInRange claims → length claims ≤ most
        → further_at most (further_claims claims ++ 10 ∷ rest) ≡ Some (claims, 10 ∷ rest) }
{}
