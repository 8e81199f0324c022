ghost use Rattle.std.specs.Prelude.{◌≡◌, ◌++◌, take, drop, OnOk};
ghost use Rattle.xc_print.specs.Records.{kind_text, undo_end_text, undo_line, undo_lines};
ghost use Rattle.xc_print.specs.Records.{overwrite_text, tail_text, made_text, moved_text, effect_text, remaining_line, remains_lines};

use crate::bytes::push_bytes;
use crate::objects::push_labelled;
use crate::paper::Paper;
use xc_data::{Chunk, Name, Num, Undo, UndoEnd};
use xc_world::remaining_from;

fn push_kind<P: Paper>(out: &mut P, undo: &Undo) -> Result<(), P::Error>
    ensures { OnOk result (P.said out.new ≡ P.said out.old ++ kind_text undo.now) }
{
    match undo {
        Undo::Overwrite { .. } => out.text("bytes"),
        Undo::Append { .. } => out.text("tail"),
        Undo::Create { .. } => out.text("made"),
        Undo::Rename { .. } => out.text("moved"),
        Undo::NewPipe(_) => out.text("pipe"),
        Undo::NewPair(_) => out.text("pair"),
    }
}

fn push_failed<P: Paper>(out: &mut P, done: u32, faults: u32) -> Result<(), P::Error>
    ensures { OnOk result (P.said out.new ≡ P.said out.old ++ undo_end_text (UndoEnd.Failed done faults)) }
{
    out.labelled("failed restored ", done as u64)?;
    out.labelled(" faults ", faults as u64)
}

/// How a compensation ended.
pub fn push_undo_end<P: Paper>(out: &mut P, end: &UndoEnd) -> Result<(), P::Error>
    ensures { OnOk result (P.said out.new ≡ P.said out.old ++ undo_end_text end.now) }
{
    match end {
        UndoEnd::Undone { faults } => out.labelled("done faults ", *faults as u64),
        UndoEnd::Failed { done, faults } => push_failed(out, *done, *faults),
        UndoEnd::Blocked { by } => out.labelled("blocked by ", *by as u64),
    }
}

fn push_undo<P: Paper>(
    out: &mut P,
    number: usize,
    undo: &Undo,
    end: &UndoEnd,
) -> Result<(), P::Error>
    ensures { OnOk result (P.said out.new ≡ P.said out.old ++ undo_line number (undo.now, end.now)) }
{
    out.labelled("  undo ", number as u64)?;
    out.text(" ")?;
    push_kind(out, undo)?;
    out.text(" ")?;
    push_undo_end(out, end)?;
    out.text("\n")
}

/// A line for each record, the newest first.
pub fn push_undos<P: Paper>(out: &mut P, records: &[(Undo, UndoEnd)]) -> Result<(), P::Error>
    ensures { OnOk result (P.said out.new ≡ P.said out.old ++ undo_lines 1 records.now) }
{
    for at in (0..records.len()).rev() {
        let (undo, end) = &records[at];
        push_undo(out, at + 1, undo, end)?;
    }
    Ok(())
}

fn covered(after: &Chunk, n: u32) -> &[u8]
    ensures { result.now ≡ take n after.now }
{
    let bytes = after.as_slice();
    if bytes.len() > n as usize {
        &bytes[..n as usize]
    } else {
        bytes
    }
}

fn remaining_bytes(after: &Chunk, n: u32, k: u32) -> &[u8]
    ensures { result.now ≡ drop k (take n after.now) }
{
    let bytes = covered(after, n);
    if bytes.len() > k as usize {
        &bytes[k as usize..]
    } else {
        &[]
    }
}

/// Bytes of an overwrite from a place of a file on.
pub fn push_overwrite<P: Paper>(
    out: &mut P,
    file: Num,
    at: u64,
    bytes: &[u8],
) -> Result<(), P::Error>
    ensures { OnOk result (P.said out.new ≡ P.said out.old ++ overwrite_text file at bytes.now) }
{
    push_labelled(out, "bytes file ", file)?;
    out.labelled(" at ", at)?;
    out.text(" ")?;
    push_bytes(out, bytes)
}

/// Appended bytes, which a file has from a place on.
pub fn push_tail<P: Paper>(out: &mut P, file: Num, from: u32, bytes: &[u8]) -> Result<(), P::Error>
    ensures { OnOk result (P.said out.new ≡ P.said out.old ++ tail_text file from bytes.now) }
{
    push_labelled(out, "tail file ", file)?;
    out.labelled(" from ", from as u64)?;
    out.text(" ")?;
    push_bytes(out, bytes)
}

/// A new name and its file.
pub fn push_made<P: Paper>(out: &mut P, name: &Name, num: Num) -> Result<(), P::Error>
    ensures { OnOk result (P.said out.new ≡ P.said out.old ++ made_text name.now num) }
{
    out.text("made ")?;
    out.push(name.as_slice())?;
    push_labelled(out, " file ", num)
}

/// A file's name before, and its name now.
pub fn push_moved<P: Paper>(out: &mut P, from: &Name, to: &Name) -> Result<(), P::Error>
    ensures { OnOk result (P.said out.new ≡ P.said out.old ++ moved_text from.now to.now) }
{
    out.text("moved ")?;
    out.push(from.as_slice())?;
    out.text(" ")?;
    out.push(to.as_slice())
}

fn push_effect<P: Paper>(out: &mut P, undo: &Undo, k: u32) -> Result<(), P::Error>
    ensures { OnOk result (P.said out.new ≡ P.said out.old ++ effect_text undo.now k) }
{
    match undo {
        Undo::Overwrite {
            file,
            at,
            after,
            n,
            ..
        } => {
            let from = *at as u64 + k as u64;
            push_overwrite(out, *file, from, remaining_bytes(after, *n, k))
        }
        Undo::Append {
            file,
            from,
            after,
            n,
        } => push_tail(out, *file, *from, covered(after, *n)),
        Undo::Create { name, num } => push_made(out, name.value(), *num),
        Undo::Rename { from, to } => push_moved(out, from.value(), to.value()),
        Undo::NewPipe(num) => push_labelled(out, "pipe ", *num),
        Undo::NewPair(num) => push_labelled(out, "pair ", *num),
    }
}

fn push_remaining<P: Paper>(out: &mut P, undo: &Undo, from: Option<u32>) -> Result<(), P::Error>
    ensures { OnOk result (P.said out.new ≡ P.said out.old ++ remaining_line undo.now from) }
{
    match from {
        None => Ok(()),
        Some(k) => {
            out.text("  remains ")?;
            push_effect(out, undo, k)?;
            out.text("\n")
        }
    }
}

/// A line for each record whose effect remains, the oldest first.
pub fn push_remains<P: Paper>(out: &mut P, records: &[(Undo, UndoEnd)]) -> Result<(), P::Error>
    ensures { OnOk result (P.said out.new ≡ P.said out.old ++ remains_lines records.now) }
{
    for (undo, end) in records {
        push_remaining(out, undo, remaining_from(undo, end))?;
    }
    Ok(())
}
