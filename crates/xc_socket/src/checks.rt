ghost use Rattle.std.specs.Prelude.{◌≡◌, ◌≤◌, ◌+◌, false, is_some, IfSome, IfOk, IfErr, OnOk, MatchResult};
ghost use Rattle.std.specs.declared.option.Option.TheVariants.{None, Some};
ghost use Rattle.xc_data.specs.Calls.{is_late};
ghost use Rattle.xc_data.specs.Private.{place_of};
ghost use Rattle.xc_data.specs.declared.private.Place.TheVariants.{Pair};
ghost use Rattle.xc_world.specs.Checks.{is_pair};
ghost use Rattle.xc_socket.specs.Checks.{pair_refusal_at};

use xc_data::{MOST_CALL_BYTES, MOST_STORED, Num, Place, Private, Reply};

/// A side of a pair that is open at a handle.
#[derive(Clone, Copy)]
pub(crate) struct OpenSide {
    pub(crate) pair: Num,
    pub(crate) side: u8,
}

/// The side of a pair at a handle, if one is open there.
pub(crate) fn side_at(me: &Private, h: u16) -> Option<OpenSide>
    ensures open { IfSome result (λ at. place_of me.now.places h ≡ Pair at.pair at.side) }
    ensures kind { is_some result ≡ is_pair (place_of me.now.places h) }
{
    match me.place(h) {
        Place::Pair { num, side } => Some(OpenSide { pair: num, side }),
        Place::Vacant | Place::File { .. } | Place::Pipe(_) => None,
    }
}

/// The side of a pair at a handle, for a call of n bytes, or the reply of the check that refuses it.
pub(crate) fn open_side(me: &Private, h: u16, n: u64) -> Result<OpenSide, Reply>
    requires stored { me.now.stored ≤ 16384 }
    ensures open { IfOk result (λ at. place_of me.now.places h ≡ Pair at.pair at.side) }
    ensures few { OnOk result ((n ≤ 1024) × (me.now.stored + n ≤ 16384)) }
    ensures now { IfErr result (λ reply. is_late reply ≡ false) }
    ensures checks { MatchResult result (λ at. pair_refusal_at me.now h n ≡ None) (λ reply. pair_refusal_at me.now h n ≡ Some reply) }
{
    let Some(at) = side_at(me, h) else {
        return Err(Reply::BadHandle);
    };
    if n > MOST_CALL_BYTES {
        return Err(Reply::TooBig);
    }
    if me.stored as u64 + n > MOST_STORED {
        return Err(Reply::TooMuch);
    }
    Ok(at)
}
