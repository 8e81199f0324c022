ghost use Rattle.std.specs.Prelude.{◌≡◌, ◌≤◌, ◌+◌, false, is_some, IfOk, IfErr, IfSome, OnOk, MatchResult};
ghost use Rattle.std.specs.declared.option.Option.TheVariants.{None, Some};
ghost use Rattle.xc_data.specs.Calls.{is_late};
ghost use Rattle.xc_data.specs.Private.{place_of};
ghost use Rattle.xc_data.specs.declared.private.Place.TheVariants.{Pipe};
ghost use Rattle.xc_world.specs.Checks.{is_pipe};
ghost use Rattle.xc_pipe.specs.Checks.{pipe_refusal_at};

use xc_data::{MOST_CALL_BYTES, MOST_STORED, Num, Place, Private, Reply};

/// The pipe at a handle, if one is open there.
pub(crate) fn pipe_at(me: &Private, h: u16) -> Option<Num>
    ensures open { IfSome result (λ num. place_of me.now.places h ≡ Pipe num) }
    ensures kind { is_some result ≡ is_pipe (place_of me.now.places h) }
{
    match me.place(h) {
        Place::Pipe(num) => Some(num),
        Place::Vacant | Place::File { .. } | Place::Pair { .. } => None,
    }
}

/// The pipe at a handle, for a call of n bytes, or the reply of the check that refuses it.
pub(crate) fn open_pipe(me: &Private, h: u16, n: u64) -> Result<Num, Reply>
    requires stored { me.now.stored ≤ 16384 }
    ensures open { IfOk result (λ num. place_of me.now.places h ≡ Pipe num) }
    ensures few { OnOk result ((n ≤ 1024) × (me.now.stored + n ≤ 16384)) }
    ensures now { IfErr result (λ reply. is_late reply ≡ false) }
    ensures checks { MatchResult result (λ num. pipe_refusal_at me.now h n ≡ None) (λ reply. pipe_refusal_at me.now h n ≡ Some reply) }
{
    let Some(num) = pipe_at(me, h) else {
        return Err(Reply::BadHandle);
    };
    if n > MOST_CALL_BYTES {
        return Err(Reply::TooBig);
    }
    if me.stored as u64 + n > MOST_STORED {
        return Err(Reply::TooMuch);
    }
    Ok(num)
}
