ghost use Rattle.std.specs.Prelude.{◌≡◌};
ghost use Rattle.xc_live_c.specs.Codes.{began_code, called_code, ended_code, kind_number, other_of, reply_code, value_of};

use xc_data::{Cause, Reply};
use xc_live::{Began, Called, Ended};

/// The call did what it says: it is done, or kept for the commit.
pub const OK: i32 = 0;
/// Of a begin: the transaction that ended this client's last attempt is still active. Begin again when one has ended.
pub const WAIT: i32 = 1;
/// The transaction was rolled back because of another one, or for want of memory. Nothing of it is left: begin again.
pub const AGAIN: i32 = 2;
/// Of an abort: it is rolled back, as asked.
pub const ABORTED: i32 = 3;
/// Of a begin: no client of this number begins any more. It isn't there, or has ended; nothing was changed where it had ended before.
pub const ENDED: i32 = 4;
/// No client of this number has begun. Nothing was changed.
pub const NOT_BEGUN: i32 = 5;
/// Of a begin: the client has a transaction. Of the end: some client has one. Nothing was changed.
pub const BEGUN: i32 = 6;
/// A save within a block, or a keep or a back outside of one. Nothing was changed.
pub const MISPLACED: i32 = 7;
/// The desk is closed. Of a text: there is none. Nothing was changed.
pub const CLOSED: i32 = 8;
/// Of an opening: the desk is open already. Of handing out and of the end: the text is there already. Nothing was changed.
pub const OPEN: i32 = 9;
/// The bytes are no file's name. Nothing was changed.
pub const BAD_NAME: i32 = 10;
/// As many names as there may be have been used. Nothing was changed.
pub const TOO_MANY_NAMES: i32 = 11;
/// The call was refused, or the host failed: its kind says how. The transaction goes on.
pub const REFUSED: i32 = 12;
/// There is no room for what would be written. Nothing was changed.
pub const TOO_SMALL: i32 = 13;
/// There was no memory before the call was asked, or to begin. Nothing was changed. Of the end: there is none for the text, and the
/// desk is closed.
pub const NO_MEMORY: i32 = 14;
/// Of an opening: the text is no prologue, or the numbers of words and clients are out of range.
pub const BAD_TEXT: i32 = 15;
/// Of a begin: as many entries wait to be handed out as may. Nothing was changed: begin again when they are handed out.
pub const FULL: i32 = 16;

// What a begin tells.
pub(crate) fn began_code(began: &Began) -> i32
    ensures { result ≡ began_code began.now }
{
    match began {
        Began::Went => OK,
        Began::Waits { .. } => WAIT,
        Began::Ended(_) => ENDED,
        Began::NoMemory => NO_MEMORY,
        Began::Full => FULL,
    }
}

// What a call tells whose reply isn't looked at.
pub(crate) fn called_code(called: &Called) -> i32
    ensures { result ≡ called_code called.now }
{
    match called {
        Called::Replied => OK,
        Called::Again(_) | Called::Gone => AGAIN,
        Called::Refused => MISPLACED,
    }
}

// What a commit or an abort tells.
pub(crate) fn ended_code(ended: &Ended) -> i32
    ensures { result ≡ ended_code ended.now }
{
    match ended {
        Ended::Committed { .. } => OK,
        Ended::Aborted { cause, .. } => match cause {
            Cause::Asked => ABORTED,
            Cause::Conflict { .. } | Cause::Revoked { .. } => AGAIN,
            Cause::NoMemory | Cause::Stuck { .. } => AGAIN,
        },
        Ended::Gone => AGAIN,
    }
}

// The kind of a reply, as the header numbers them.
pub(crate) fn kind_number(reply: &Reply) -> u32
    ensures { result ≡ kind_number reply.now }
{
    match reply {
        Reply::Number(_) => 1,
        Reply::Got(_) => 2,
        Reply::Made(_) => 3,
        Reply::MadePair(_, _) => 4,
        Reply::Done => 5,
        Reply::Late => 6,
        Reply::Undone(_) => 7,
        Reply::End => 8,
        Reply::Empty => 9,
        Reply::NoName => 10,
        Reply::Exists => 11,
        Reply::BadHandle => 12,
        Reply::PastEnd => 13,
        Reply::TooBig => 14,
        Reply::TooMuch => 15,
        Reply::BadWord => 16,
        Reply::Fault(_) => 17,
    }
}

// What a reply tells: those up to `Undone`, and the end of a file or an empty pipe, are no refusals.
pub(crate) fn reply_code(reply: &Reply) -> i32
    ensures { result ≡ reply_code reply.now }
{
    if kind_number(reply) <= 9 { OK } else { REFUSED }
}

// A reply's number, its handle, or its count of bytes or faults; 0 where it has none.
pub(crate) fn value_of(reply: &Reply) -> u64
    ensures { result ≡ value_of reply.now }
{
    match reply {
        Reply::Number(n) => *n,
        Reply::Got(bytes) => bytes.len() as u64,
        Reply::Made(handle) | Reply::MadePair(handle, _) => u64::from(*handle),
        Reply::Fault(n) | Reply::Undone(n) => u64::from(*n),
        Reply::Done | Reply::Late | Reply::End | Reply::Empty => 0,
        Reply::NoName | Reply::Exists | Reply::BadHandle | Reply::PastEnd => 0,
        Reply::TooBig | Reply::TooMuch | Reply::BadWord => 0,
    }
}

// The handle of the other side of a new pair; 0 of any other reply.
pub(crate) fn other_of(reply: &Reply) -> u64
    ensures { result ≡ other_of reply.now }
{
    match reply {
        Reply::MadePair(_, handle) => u64::from(*handle),
        Reply::Number(_) | Reply::Got(_) | Reply::Made(_) | Reply::Fault(_) => 0,
        Reply::Undone(_) | Reply::Done | Reply::Late | Reply::End | Reply::Empty => 0,
        Reply::NoName | Reply::Exists | Reply::BadHandle | Reply::PastEnd => 0,
        Reply::TooBig | Reply::TooMuch | Reply::BadWord => 0,
    }
}
