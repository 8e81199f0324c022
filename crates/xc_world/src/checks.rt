ghost use Rattle.std.specs.Prelude.{◌≡◌, ◌<◌, count_by};
ghost use Rattle.xc_data.specs.Private.{is_vacant};
ghost use Rattle.xc_world.specs.Checks as check;

use xc_data::{Call, MOST_CALL_BYTES, MOST_MADE, MOST_STORED, Place, Private, Reply};

fn is_file(place: Place) -> bool
    ensures { result ≡ check.is_file place }
{
    matches!(place, Place::File { .. })
}

fn is_pipe(place: Place) -> bool
    ensures { result ≡ check.is_pipe place }
{
    matches!(place, Place::Pipe(_))
}

fn is_pair(place: Place) -> bool
    ensures { result ≡ check.is_pair place }
{
    matches!(place, Place::Pair { .. })
}

/// The handle isn't open, or is of another kind than the call needs.
pub fn is_bad_handle(call: &Call, me: &Private) -> bool
    ensures { result ≡ check.is_bad_handle call.now me.now }
{
    match call {
        Call::XRead { h, .. } | Call::XSeek { h, .. } => !is_file(me.place(*h)),
        Call::XWriteOvr { h, .. } | Call::XWriteSeq { h, .. } => !is_file(me.place(*h)),
        Call::XLen { h } | Call::XSync { h, .. } => !is_file(me.place(*h)),
        Call::XClose { h } => me.place(*h).is_vacant(),
        Call::XReadPipe { h, .. } | Call::XWritePipe { h, .. } => !is_pipe(me.place(*h)),
        Call::XRecvmsg { h } | Call::XSendmsg { h, .. } => !is_pair(me.place(*h)),
        Call::XShutdown { h, .. } => !(is_pipe(me.place(*h)) || is_pair(me.place(*h))),
        Call::Load { .. } | Call::Store { .. } | Call::XOpen { .. } | Call::XCreate { .. } => false,
        Call::XRename { .. } | Call::XPipe | Call::XPair | Call::XUnlink { .. } => false,
        Call::XThreadCreate { .. } | Call::Save | Call::Keep | Call::Back => false,
    }
}

/// Bytes or a read of more than 1,024.
pub fn is_too_big(call: &Call) -> bool
    ensures { result ≡ check.is_too_big call.now }
{
    match call {
        Call::XRead { n, .. } | Call::XReadPipe { n, .. } => *n > MOST_CALL_BYTES,
        // Of any other call its bytes count, also of one yet to come.
        _ => call.bytes().len() as u64 > MOST_CALL_BYTES,
    }
}

// So many more bytes would pass what a transaction may store.
fn passes_store(me: &Private, n: u64) -> bool
    ensures { result ≡ check.passes_store me.now n }
{
    (me.stored as u64).saturating_add(n) > MOST_STORED
}

fn has_made_all(me: &Private) -> bool
    ensures { result ≡ check.has_made_all me.now }
{
    me.made >= MOST_MADE
}

fn vacant_count(places: &[Place]) -> usize
    ensures { result ≡ count_by is_vacant places.now }
{
    places.iter().filter(|place| place.is_vacant()).count()
}

/// The bytes or a read would pass the store; an object or a handle too many.
pub fn is_too_much(call: &Call, me: &Private) -> bool
    ensures { result ≡ check.is_too_much call.now me.now }
{
    match call {
        Call::XRead { n, .. } | Call::XReadPipe { n, .. } => passes_store(me, *n),
        Call::XRecvmsg { .. } => passes_store(me, MOST_CALL_BYTES),
        Call::XWriteOvr { bytes, .. } | Call::XWriteSeq { bytes, .. } => {
            passes_store(me, bytes.len() as u64)
        }
        Call::XWritePipe { bytes, .. } | Call::XSendmsg { bytes, .. } => {
            passes_store(me, bytes.len() as u64)
        }
        Call::XOpen { .. } => me.vacant().is_none(),
        Call::XCreate { .. } | Call::XPipe => has_made_all(me) || me.vacant().is_none(),
        Call::XPair => has_made_all(me) || vacant_count(&me.places) < 2,
        Call::Load { .. } | Call::Store { .. } | Call::XSeek { .. } | Call::XLen { .. } => false,
        Call::XRename { .. } | Call::XClose { .. } | Call::XUnlink { .. } => false,
        Call::XSync { .. } | Call::XShutdown { .. } | Call::XThreadCreate { .. } => false,
        Call::Save | Call::Keep | Call::Back => false,
    }
}

/// There is no such word.
pub fn is_bad_word(call: &Call, words: u64) -> bool
    ensures { result ≡ check.is_bad_word call.now words }
{
    match call.word() {
        Some(at) => at >= words,
        None => false,
    }
}

/// One of the checks refuses the call.
pub fn is_refused(call: &Call, me: &Private, words: u64) -> bool
    ensures { result ≡ check.is_refused call.now me.now words }
{
    is_bad_handle(call, me) || is_too_big(call) || is_too_much(call, me) || is_bad_word(call, words)
}
