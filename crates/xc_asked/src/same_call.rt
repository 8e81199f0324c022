ghost use Rattle.std.specs.Bool.{Decides};
ghost use Rattle.std.specs.Prelude.{◌≡◌, true};
ghost use Rattle.xc_data.specs.Calls.{is_kept};

use xc_data::{Boxed, Call, Chunk, Ident, SharedName, SlotName};

fn same_bytes(a: &Chunk, b: &Chunk) -> bool
    ensures { Decides result (a.now ≡ b.now) }
{
    a == b
}

fn same_name(a: &SharedName, b: &SharedName) -> bool
    ensures { Decides result (a.now ≡ b.now) }
{
    a == b
}

fn same_block(a: &Boxed<Ident>, b: &Boxed<Ident>) -> bool
    ensures { Decides result (a.now ≡ b.now) }
{
    a == b
}

fn same_ident(a: &Ident, b: &Ident) -> bool
    ensures { Decides result (a.now ≡ b.now) }
{
    a == b
}

fn same_slot(a: &SlotName, b: &SlotName) -> bool
    ensures { Decides result (a.now ≡ b.now) }
{
    match (a.name(), b.name()) {
        (Some(slot), Some(other)) => same_ident(slot, other),
        (None, None) => true,
        (Some(_), None) | (None, Some(_)) => false,
    }
}

// The same of calls that are kept for the commit.
fn is_same_kept(a: &Call, b: &Call) -> bool
    requires { is_kept a.now ≡ true }
    ensures { Decides result (a.now ≡ b.now) }
{
    match a {
        Call::XUnlink { name, slot } => {
            matches!(b, Call::XUnlink { name: file, slot: end } if same_name(name, file) && same_slot(slot, end))
        }
        Call::XSync { h, slot } => {
            matches!(b, Call::XSync { h: to, slot: end } if h == to && same_slot(slot, end))
        }
        Call::XWritePipe { h, bytes, slot } => {
            matches!(b, Call::XWritePipe { h: to, bytes: data, slot: end }
                if h == to && same_bytes(bytes, data) && same_slot(slot, end))
        }
        Call::XShutdown { h, slot } => {
            matches!(b, Call::XShutdown { h: to, slot: end } if h == to && same_slot(slot, end))
        }
        Call::XSendmsg { h, bytes, slot } => {
            matches!(b, Call::XSendmsg { h: to, bytes: data, slot: end }
                if h == to && same_bytes(bytes, data) && same_slot(slot, end))
        }
        Call::XThreadCreate { body, slot } => {
            matches!(b, Call::XThreadCreate { body: block, slot: end } if same_block(body, block) && same_slot(slot, end))
        }
        // The contract leaves no other call.
        _ => unreachable!(),
    }
}

/// Whether two calls are the same.
pub(crate) fn is_same(a: &Call, b: &Call) -> bool
    ensures { Decides result (a.now ≡ b.now) }
{
    match a {
        Call::Load { at } => matches!(b, Call::Load { at: word } if at == word),
        Call::Store { at, value } => {
            matches!(b, Call::Store { at: word, value: number } if at == word && value == number)
        }
        Call::XOpen { name } => matches!(b, Call::XOpen { name: file } if same_name(name, file)),
        Call::XCreate { name } =>
            matches!(b, Call::XCreate { name: file } if same_name(name, file)),
        Call::XRead { h, n } => matches!(b, Call::XRead { h: of, n: most } if h == of && n == most),
        Call::XWriteOvr { h, bytes } => {
            matches!(b, Call::XWriteOvr { h: to, bytes: data } if h == to && same_bytes(bytes, data))
        }
        Call::XWriteSeq { h, bytes } => {
            matches!(b, Call::XWriteSeq { h: to, bytes: data } if h == to && same_bytes(bytes, data))
        }
        Call::XSeek { h, to } => matches!(b, Call::XSeek { h: of, to: at } if h == of && to == at),
        Call::XLen { h } => matches!(b, Call::XLen { h: of } if h == of),
        Call::XRename { from, to } => {
            matches!(b, Call::XRename { from: old, to: new } if same_name(from, old) && same_name(to, new))
        }
        Call::XClose { h } => matches!(b, Call::XClose { h: of } if h == of),
        Call::XPipe => matches!(b, Call::XPipe),
        Call::XReadPipe { h, n } =>
            matches!(b, Call::XReadPipe { h: of, n: most } if h == of && n == most),
        Call::XPair => matches!(b, Call::XPair),
        Call::XRecvmsg { h } => matches!(b, Call::XRecvmsg { h: of } if h == of),
        Call::Save => matches!(b, Call::Save),
        Call::Keep => matches!(b, Call::Keep),
        Call::Back => matches!(b, Call::Back),
        Call::XUnlink { .. } | Call::XSync { .. } | Call::XWritePipe { .. } => is_same_kept(a, b),
        Call::XShutdown { .. } | Call::XSendmsg { .. } | Call::XThreadCreate { .. } => is_same_kept(
            a, b,
        ),
    }
}
