ghost use Rattle.std.specs.Prelude.{◌≡◌, [], ◌∷◌, ◌++◌, ◌+◌, ◌≤◌, map, nat_eq, if◌then◌else◌};
ghost use Rattle.std.specs.Cmp.Lexicographic.{pointwise};
ghost use Rattle.arrayvec.specs.ArrayVec.{array_vec_len};
ghost use Rattle.xc_data.specs.declared.object.Object.TheVariants as object;
ghost use Rattle.xc_data.specs.Claims.{claim};
ghost use Rattle.xc_data.specs.Private.{place_of};
ghost use Rattle.xc_world.specs.Touch.{object_at};
ghost use Rattle.xc_world.specs.Modes.{mode_of, claims_of};

use crate::checks::is_refused;
use arrayvec::ArrayVec;
use xc_data::{
    Call, Chunk, Claim, LateCall, Mode, NoMemory, Num, Object, Place, Private, SharedName,
};

// The five calls that only look.
fn mode_of(call: &Call) -> Mode
    ensures { result ≡ mode_of call.now }
{
    match call {
        Call::Load { .. } | Call::XOpen { .. } | Call::XRead { .. } => Mode::Shared,
        Call::XLen { .. } | Call::XSync { .. } => Mode::Shared,
        // Any other call, also one yet to come: to keep all others away is never wrong.
        _ => Mode::Exclusive,
    }
}

// A claim is built where it is pushed, since each hand-over would copy it.
fn push_word(claims: &mut ArrayVec<Claim, 2>, mode: Mode, at: u32)
    requires { array_vec_len claims.old + 1 ≤ 2 }
    ensures { claims.new.items ≡ claims.old.items ++ claim mode (object.Word at) ∷ [] }
{
    claims.push(Claim {
        object: Object::Word(at),
        mode,
    });
}

fn push_name(claims: &mut ArrayVec<Claim, 2>, mode: Mode, name: &SharedName)
    requires { array_vec_len claims.old + 1 ≤ 2 }
    ensures { claims.new.items ≡ claims.old.items ++ claim mode (object.Name name.now) ∷ [] }
{
    claims.push(Claim {
        object: Object::Name(name.again()),
        mode,
    });
}

// Two names, once where they are equal.
fn push_names(claims: &mut ArrayVec<Claim, 2>, mode: Mode, from: &SharedName, to: &SharedName)
    requires { array_vec_len claims.old + 2 ≤ 2 }
    ensures { claims.new.items ≡ claims.old.items ++ map (claim mode)
        (if pointwise nat_eq from.now to.now then object.Name from.now ∷ [] else object.Name from.now ∷ object.Name to.now ∷ []) }
{
    push_name(claims, mode, from);
    if from != to {
        push_name(claims, mode, to);
    }
}

// What a handle holds.
fn push_held(claims: &mut ArrayVec<Claim, 2>, mode: Mode, me: &Private, h: u16)
    requires { array_vec_len claims.old + 1 ≤ 2 }
    ensures { claims.new.items ≡ claims.old.items ++ map (claim mode) (object_at (place_of me.now.places h)) }
{
    let object = match me.place(h) {
        Place::Vacant => return,
        Place::File { num, .. } => Object::File(num),
        Place::Pipe(num) => Object::Pipe(num),
        Place::Pair { num, .. } => Object::Pair(num),
    };
    claims.push(Claim { object, mode });
}

fn push_jobs(claims: &mut ArrayVec<Claim, 2>, mode: Mode)
    requires { array_vec_len claims.old + 1 ≤ 2 }
    ensures { claims.new.items ≡ claims.old.items ++ claim mode object.Jobs ∷ [] }
{
    claims.push(Claim {
        object: Object::Jobs,
        mode,
    });
}

/// Puts into an empty list what a call claims: the objects that it touches, in its order and its mode. It takes no memory.
pub fn push_claims(claims: &mut ArrayVec<Claim, 2>, call: &Call, me: &Private, words: u32)
    requires { claims.old.items ≡ [] }
    ensures { claims.new.items ≡ claims_of call.now me.now words }
{
    if is_refused(call, me, words as u64) {
        return;
    }
    let mode = mode_of(call);
    match call {
        Call::Load { at } | Call::Store { at, .. } => push_word(claims, mode, *at as u32),
        Call::XOpen { name } | Call::XCreate { name } | Call::XUnlink { name, .. } => {
            push_name(claims, mode, name);
        }
        Call::XRename { from, to } => push_names(claims, mode, from, to),
        Call::XRead { h, .. } | Call::XWriteOvr { h, .. } => push_held(claims, mode, me, *h),
        Call::XWriteSeq { h, .. } | Call::XLen { h } => push_held(claims, mode, me, *h),
        Call::XReadPipe { h, .. } | Call::XRecvmsg { h } => push_held(claims, mode, me, *h),
        Call::XSync { h, .. } | Call::XWritePipe { h, .. } => push_held(claims, mode, me, *h),
        Call::XShutdown { h, .. } | Call::XSendmsg { h, .. } => push_held(claims, mode, me, *h),
        Call::XThreadCreate { .. } => push_jobs(claims, mode),
        Call::XSeek { .. } | Call::XClose { .. } | Call::XPipe | Call::XPair => {}
        Call::Save | Call::Keep | Call::Back => {}
    }
}
