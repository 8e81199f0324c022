ghost use Rattle.std.specs.Prelude.{◌≡◌, ◌++◌, OnOk};
ghost use Rattle.xc_data.specs.declared.entry.KeptItem.TheVariants.{Message};
ghost use Rattle.xc_print.specs.Kept.{is_line_open, opening_text, closing_text, turned_to, item_text, opened_by, kept_line, kept_lines};

use crate::bytes::{push_bytes, push_escaped};
use crate::objects::push_labelled;
use crate::paper::Paper;
use xc_data::{Chunk, KeptItem, Num};

// Whether the line of this pipe is open.
fn is_open(opened: Option<Num>, pipe: Num) -> bool
    ensures { result ≡ is_line_open opened pipe }
{
    match opened {
        Some(before) => before.tx == pipe.tx && before.k == pipe.k,
        None => false,
    }
}

fn push_opening<P: Paper>(out: &mut P, pipe: Num) -> Result<(), P::Error>
    ensures { OnOk result (P.said out.new ≡ P.said out.old ++ opening_text pipe) }
{
    push_labelled(out, "kept pipe ", pipe)?;
    out.text(" \"")
}

// Ends the line that is open.
fn push_closing<P: Paper>(out: &mut P, opened: Option<Num>) -> Result<(), P::Error>
    ensures { OnOk result (P.said out.new ≡ P.said out.old ++ closing_text opened) }
{
    match opened {
        Some(_) => out.text("\"\n"),
        None => Ok(()),
    }
}

// Ends the line that is open and opens this pipe's, but where it is open already.
fn push_turn<P: Paper>(out: &mut P, opened: Option<Num>, pipe: Num) -> Result<(), P::Error>
    ensures { OnOk result (P.said out.new ≡ P.said out.old ++ turned_to opened pipe) }
{
    if is_open(opened, pipe) {
        return Ok(());
    }
    push_closing(out, opened)?;
    push_opening(out, pipe)
}

/// The line of a kept message.
pub fn push_message<P: Paper>(
    out: &mut P,
    pair: Num,
    side: u8,
    bytes: &Chunk,
) -> Result<(), P::Error>
    ensures { OnOk result (P.said out.new ≡ P.said out.old ++ kept_line (Message pair side bytes.now)) }
{
    push_labelled(out, "kept pair ", pair)?;
    out.labelled(" side ", side as u64)?;
    out.text(" ")?;
    push_bytes(out, bytes.as_slice())?;
    out.text("\n")
}

fn push_item<P: Paper>(out: &mut P, opened: Option<Num>, item: &KeptItem) -> Result<(), P::Error>
    ensures { OnOk result (P.said out.new ≡ P.said out.old ++ item_text opened item.now) }
{
    match item {
        KeptItem::Bytes { pipe, bytes } => {
            push_turn(out, opened, *pipe)?;
            push_escaped(out, bytes.as_slice())
        }
        KeptItem::Message { pair, side, bytes } => {
            push_closing(out, opened)?;
            push_message(out, *pair, *side, bytes)
        }
    }
}

// The pipe whose line is open after an item.
fn opened_by(item: &KeptItem) -> Option<Num>
    ensures { result ≡ opened_by item.now }
{
    match item {
        KeptItem::Bytes { pipe, .. } => Some(*pipe),
        KeptItem::Message { .. } => None,
    }
}

/// A line for each pipe, however many items its bytes are in, and one for each message. No bytes are copied but to the page.
/// A pipe's line stays open until an item of another object comes, or none.
#[tactic(auto, using(crate::proofs::Joins::none_left))]
pub fn push_kept<P: Paper>(out: &mut P, items: &[KeptItem]) -> Result<(), P::Error>
    ensures { OnOk result (P.said out.new ≡ P.said out.old ++ kept_lines items.now) }
{
    let mut opened = None;
    for item in items {
        push_item(out, opened, item)?;
        opened = opened_by(item);
    }
    push_closing(out, opened)
}
