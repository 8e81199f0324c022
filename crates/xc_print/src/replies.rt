ghost use Rattle.std.specs.Prelude.{◌≡◌, ◌++◌, OnOk, codes};
ghost use Rattle.xc_print.specs.Replies.{reply_text, late_end_text};

use crate::bytes::push_bytes;
use crate::objects::push_handled;
use crate::paper::Paper;
use xc_data::{LateEnd, Reply};

/// A reply as a journal prints it, after ` = `.
pub fn push_reply<P: Paper>(out: &mut P, reply: &Reply) -> Result<(), P::Error>
    ensures { OnOk result (P.said out.new ≡ P.said out.old ++ (codes " = " ++ reply_text reply.now)) }
{
    match reply {
        Reply::Number(n) => out.labelled(" = ", *n),
        Reply::Got(bytes) => {
            out.text(" = ")?;
            push_bytes(out, bytes.as_slice())
        }
        Reply::Made(h) => push_handled(out, " = ", *h),
        Reply::MadePair(h, g) => {
            push_handled(out, " = ", *h)?;
            push_handled(out, " ", *g)
        }
        Reply::Done => out.text(" = done"),
        Reply::End => out.text(" = end"),
        Reply::Empty => out.text(" = empty"),
        Reply::NoName => out.text(" = no name"),
        Reply::Exists => out.text(" = exists"),
        Reply::BadHandle => out.text(" = bad handle"),
        Reply::PastEnd => out.text(" = past end"),
        Reply::TooBig => out.text(" = too big"),
        Reply::TooMuch => out.text(" = too much"),
        Reply::BadWord => out.text(" = bad word"),
        Reply::Fault(n) => out.labelled(" = fault ", *n as u64),
        Reply::Late => out.text(" = late"),
        Reply::Undone(faults) => out.labelled(" = done faults ", *faults as u64),
    }
}

/// The end of a late call as a journal prints it.
pub fn push_late_end<P: Paper>(out: &mut P, end: LateEnd) -> Result<(), P::Error>
    ensures { OnOk result (P.said out.new ≡ P.said out.old ++ late_end_text end) }
{
    match end {
        LateEnd::Done => out.text("done"),
        LateEnd::Full(n) => out.labelled("full ", n as u64),
        LateEnd::Shut => out.text("shut"),
        LateEnd::NoName => out.text("no name"),
        LateEnd::NoScript => out.text("no script"),
        LateEnd::Fault(n) => out.labelled("fault ", n as u64),
        LateEnd::NoMemory(n) => out.labelled("no memory ", n as u64),
    }
}
