ghost use Rattle.std.specs.List.{AllByRecursion};
ghost use Rattle.std.specs.Prelude.{◌<◌, ◌^◌};
ghost use Rattle.xc_lines.specs.Ranges.{AreBytes, IsCallInRange, IsLateEndInRange, IsReplyInRange};

use crate::parts::{self, bytes, half, ident, number, wide};
use xc_data::{Call, LateEnd, Reply};

// A handle and a count are within their ranges.
fn counted(h: u16, n: u64)
    ensures { (h < 2 ^ 16) × (n < 2 ^ 64) }
{
    half(h);
    wide(n);
}

// A handle and the bytes that are written through it are.
fn written(h: u16, all: &[u8])
    ensures { (h < 2 ^ 16) × AreBytes all.now }
{
    half(h);
    bytes(all);
}

// A call is.
fn call(call: &Call)
    ensures { IsCallInRange call.now }
{
    match call {
        Call::Load { at } => wide(*at),
        Call::Store { at, value } => {
            wide(*at);
            wide(*value);
        }
        Call::XOpen { name } | Call::XCreate { name } => parts::name(name),
        Call::XRead { h, n } | Call::XSeek { h, to: n } | Call::XReadPipe { h, n } => {
            counted(*h, *n);
        }
        Call::XLen { h } | Call::XClose { h } | Call::XRecvmsg { h } => half(*h),
        Call::XWriteOvr { h, bytes } | Call::XWriteSeq { h, bytes } => {
            written(*h, bytes.as_slice());
        }
        Call::XRename { from, to } => {
            parts::name(from);
            parts::name(to);
        }
        Call::XUnlink { name, slot } => {
            parts::name(name);
            parts::slot(slot);
        }
        Call::XSync { h, slot } | Call::XShutdown { h, slot } => {
            half(*h);
            parts::slot(slot);
        }
        Call::XWritePipe { h, bytes, slot } | Call::XSendmsg { h, bytes, slot } => {
            written(*h, bytes.as_slice());
            parts::slot(slot);
        }
        Call::XThreadCreate { body, slot } => {
            ident(body.value());
            parts::slot(slot);
        }
        Call::XPipe | Call::XPair | Call::Save | Call::Keep | Call::Back => {}
    }
}

/// Calls are.
pub(crate) fn calls(all: &[Call])
    ensures { AllByRecursion IsCallInRange all.now }
{
    let mut rest = all;
    while let [first, behind @ ..] = rest {
        call(first);
        rest = behind;
    }
}

// A reply is.
fn reply(reply: &Reply)
    ensures { IsReplyInRange reply.now }
{
    match reply {
        Reply::Number(n) => wide(*n),
        Reply::Got(all) => bytes(all.as_slice()),
        Reply::Made(h) => half(*h),
        Reply::MadePair(h, g) => {
            half(*h);
            half(*g);
        }
        Reply::Fault(n) | Reply::Undone(n) => number(*n),
        Reply::Done | Reply::End | Reply::Empty | Reply::NoName | Reply::Exists => {}
        Reply::BadHandle | Reply::PastEnd | Reply::TooBig | Reply::TooMuch => {}
        Reply::BadWord | Reply::Late => {}
    }
}

/// Replies are.
pub(crate) fn replies(all: &[Reply])
    ensures { AllByRecursion IsReplyInRange all.now }
{
    let mut rest = all;
    while let [first, behind @ ..] = rest {
        reply(first);
        rest = behind;
    }
}

// The end of a late call is.
fn late_end(end: &LateEnd)
    ensures { IsLateEndInRange end.now }
{
    match end {
        LateEnd::Full(n) | LateEnd::Fault(n) | LateEnd::NoMemory(n) => number(*n),
        LateEnd::Done | LateEnd::Shut | LateEnd::NoName | LateEnd::NoScript => {}
    }
}

/// The ends of late calls are.
pub(crate) fn late_ends(all: &[LateEnd])
    ensures { AllByRecursion IsLateEndInRange all.now }
{
    let mut rest = all;
    while let [first, behind @ ..] = rest {
        late_end(first);
        rest = behind;
    }
}
