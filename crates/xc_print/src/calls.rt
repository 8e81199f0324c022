ghost use Rattle.std.specs.Prelude.{◌≡◌, ◌++◌, OnOk, codes};
ghost use Rattle.std.specs.Fmt.{decimal};
ghost use Rattle.xc_print.specs.Bytes.{bytes_text};
ghost use Rattle.xc_print.specs.Objects.{handle_text};
ghost use Rattle.xc_print.specs.Calls.{slot_text, call_text};

use crate::bytes::push_bytes;
use crate::objects::push_handled;
use crate::paper::Paper;
use xc_data::{Call, Chunk, Ident, SharedName, SlotName};

fn push_named<P: Paper>(out: &mut P, before: &str, name: &SharedName) -> Result<(), P::Error>
    ensures { OnOk result (P.said out.new ≡ P.said out.old ++ (before.now ++ name.now)) }
{
    out.text(before)?;
    out.push(name.as_slice())
}

fn push_ident<P: Paper>(out: &mut P, before: &str, ident: &Ident) -> Result<(), P::Error>
    ensures { OnOk result (P.said out.new ≡ P.said out.old ++ (before.now ++ ident.now)) }
{
    out.text(before)?;
    out.push(ident.as_slice())
}

fn push_numbered<P: Paper>(out: &mut P, before: &str, h: u16, n: u64) -> Result<(), P::Error>
    ensures { OnOk result (P.said out.new ≡ P.said out.old ++ (before.now ++ handle_text h ++ codes " " ++ decimal n)) }
{
    push_handled(out, before, h)?;
    out.labelled(" ", n)
}

fn push_written<P: Paper>(out: &mut P, before: &str, h: u16, bytes: &Chunk) -> Result<(), P::Error>
    ensures { OnOk result (P.said out.new ≡ P.said out.old ++ (before.now ++ handle_text h ++ codes " " ++ bytes_text bytes.now)) }
{
    push_handled(out, before, h)?;
    out.text(" ")?;
    push_bytes(out, bytes.as_slice())
}

fn push_slot<P: Paper>(out: &mut P, slot: &SlotName) -> Result<(), P::Error>
    ensures { OnOk result (P.said out.new ≡ P.said out.old ++ slot_text slot.now) }
{
    match slot.name() {
        None => Ok(()),
        Some(slot) => push_ident(out, " slot ", slot),
    }
}

fn push_named_late<P: Paper>(
    out: &mut P,
    before: &str,
    name: &SharedName,
    slot: &SlotName,
) -> Result<(), P::Error>
    ensures { OnOk result (P.said out.new ≡ P.said out.old ++ (before.now ++ name.now ++ slot_text slot.now)) }
{
    push_named(out, before, name)?;
    push_slot(out, slot)
}

fn push_ident_late<P: Paper>(
    out: &mut P,
    before: &str,
    ident: &Ident,
    slot: &SlotName,
) -> Result<(), P::Error>
    ensures { OnOk result (P.said out.new ≡ P.said out.old ++ (before.now ++ ident.now ++ slot_text slot.now)) }
{
    push_ident(out, before, ident)?;
    push_slot(out, slot)
}

fn push_handled_late<P: Paper>(
    out: &mut P,
    before: &str,
    h: u16,
    slot: &SlotName,
) -> Result<(), P::Error>
    ensures { OnOk result (P.said out.new ≡ P.said out.old ++ (before.now ++ handle_text h ++ slot_text slot.now)) }
{
    push_handled(out, before, h)?;
    push_slot(out, slot)
}

fn push_written_late<P: Paper>(
    out: &mut P,
    before: &str,
    h: u16,
    bytes: &Chunk,
    slot: &SlotName,
) -> Result<(), P::Error>
    ensures { OnOk result (P.said out.new
        ≡ P.said out.old ++ (before.now ++ handle_text h ++ codes " " ++ bytes_text bytes.now ++ slot_text slot.now)) }
{
    push_written(out, before, h, bytes)?;
    push_slot(out, slot)
}

/// A line's start: a call as its script word and its values, without the reply.
pub fn push_call<P: Paper>(out: &mut P, call: &Call) -> Result<(), P::Error>
    ensures { OnOk result (P.said out.new ≡ P.said out.old ++ (codes "  " ++ call_text call.now)) }
{
    match call {
        Call::Load { at } => out.labelled("  load ", *at as u64),
        Call::Store { at, value } => {
            out.labelled("  store ", *at as u64)?;
            out.labelled(" ", *value)
        }
        Call::XOpen { name } => push_named(out, "  x_open ", name),
        Call::XCreate { name } => push_named(out, "  x_create ", name),
        Call::XRead { h, n } => push_numbered(out, "  x_read ", *h, *n),
        Call::XWriteOvr { h, bytes } => push_written(out, "  x_write_ovr ", *h, bytes),
        Call::XWriteSeq { h, bytes } => push_written(out, "  x_write_seq ", *h, bytes),
        Call::XSeek { h, to } => push_numbered(out, "  x_seek ", *h, *to),
        Call::XLen { h } => push_handled(out, "  x_len ", *h),
        Call::XRename { from, to } => {
            push_named(out, "  x_rename ", from)?;
            push_named(out, " ", to)
        }
        Call::XClose { h } => push_handled(out, "  x_close ", *h),
        Call::XPipe => out.text("  x_pipe"),
        Call::XReadPipe { h, n } => push_numbered(out, "  x_read_pipe ", *h, *n),
        Call::XPair => out.text("  x_pair"),
        Call::XRecvmsg { h } => push_handled(out, "  x_recvmsg ", *h),
        Call::XUnlink { name, slot } => push_named_late(out, "  x_unlink ", name, slot),
        Call::XSync { h, slot } => push_handled_late(out, "  x_sync ", *h, slot),
        Call::XWritePipe { h, bytes, slot } => {
            push_written_late(out, "  x_write_pipe ", *h, bytes, slot)
        }
        Call::XShutdown { h, slot } => push_handled_late(out, "  x_shutdown ", *h, slot),
        Call::XSendmsg { h, bytes, slot } => {
            push_written_late(out, "  x_sendmsg ", *h, bytes, slot)
        }
        Call::XThreadCreate { body, slot } => {
            push_ident_late(out, "  x_thread_create ", body.value(), slot)
        }
        Call::Save => out.text("  save"),
        Call::Keep => out.text("  keep"),
        Call::Back => out.text("  back"),
    }
}
