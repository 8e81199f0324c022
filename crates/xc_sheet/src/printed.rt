ghost use Rattle.std.specs.Prelude.{◌≡◌, ◌<◌, ◌++◌, List, ℕ, length, IfOk, OnOk, Some};
ghost use Rattle.xc_print.specs.Kept.{kept_line};
ghost use Rattle.xc_sheet.specs.declared.lines.Line.{Line};
ghost use Rattle.xc_sheet.specs.declared.lines.Line.TheVariants as line;
ghost use Rattle.xc_lines.specs.Heads.{head_text, numbers_text, word_of, cause_of};
ghost use Rattle.xc_sheet.specs.Lines.{line_at, line_text, total_text};
ghost use Rattle.xc_lines.specs.Parts.{GivesRead, PassesFront};
ghost use Rattle.xc_sheet.specs.Printed.{past_some, printed};
ghost use Rattle.xc_sheet.specs.Ranges.{IsLineInRange};
ghost use Rattle.xc_lines.specs.Tails.{kind_name, standing_text, job_end_name};

use crate::lines::{Line, any_line};
use std::alloc::Global;
use xc_data::{Cause, Ident, KeptItem, LateEnd, NoMemory, Text, UndoEnd};
use xc_lines::{Cursor, EffectShown, Head, JobShown, ReadStop, UndoKind};
use xc_print::{
    Page, Totals, push_bytes, push_call_line, push_cause, push_held, push_labelled, push_late_end,
    push_made, push_message, push_moved, push_overwrite, push_tail, push_totals, push_undo_end,
};

// As many bytes as a page wants room for before it prints a short number.
const FEW: usize = 4;

fn push_word_of(out: &mut Page, cause: &Option<Cause>) -> Result<(), NoMemory>
    ensures { OnOk result (out.new ≡ out.old ++ word_of cause.now) }
{
    match cause {
        None => out.text("commit"),
        Some(_) => out.text("abort"),
    }
}

fn push_cause_of(out: &mut Page, cause: &Option<Cause>) -> Result<(), NoMemory>
    ensures { OnOk result (out.new ≡ out.old ++ cause_of cause.now) }
{
    match cause {
        None => Ok(()),
        Some(cause) => {
            out.text(" ")?;
            push_cause(out, cause)
        }
    }
}

fn push_numbers(out: &mut Page, head: &Head) -> Result<(), NoMemory>
    ensures { OnOk result (out.new ≡ out.old ++ numbers_text head.now) }
{
    out.labelled(" t", head.tx as u64)?;
    out.labelled(" job ", head.job as u64)?;
    out.labelled(" rank ", head.rank as u64)?;
    out.labelled(" began ", head.began as u64)
}

fn push_head(out: &mut Page, head: &Head) -> Result<(), NoMemory>
    ensures { OnOk result (out.new ≡ out.old ++ head_text head.now) }
{
    push_word_of(out, &head.cause)?;
    push_numbers(out, head)?;
    push_cause_of(out, &head.cause)?;
    out.text("\n")
}

fn push_kind(out: &mut Page, kind: UndoKind) -> Result<(), NoMemory>
    ensures { OnOk result (out.new ≡ out.old ++ kind_name kind) }
{
    match kind {
        UndoKind::Bytes => out.text("bytes"),
        UndoKind::Tail => out.text("tail"),
        UndoKind::Made => out.text("made"),
        UndoKind::Moved => out.text("moved"),
        UndoKind::Pipe => out.text("pipe"),
        UndoKind::Pair => out.text("pair"),
    }
}

fn push_standing(out: &mut Page, effect: &EffectShown) -> Result<(), NoMemory>
    ensures { OnOk result (out.new ≡ out.old ++ standing_text effect.now) }
{
    match effect {
        EffectShown::Bytes { file, at, bytes } => push_overwrite(out, *file, *at, bytes.as_slice()),
        EffectShown::Tail { file, from, bytes } => push_tail(out, *file, *from, bytes.as_slice()),
        EffectShown::Made { name, num } => push_made(out, name.value(), *num),
        EffectShown::Moved { from, to } => push_moved(out, from.value(), to.value()),
        EffectShown::Pipe(num) => push_labelled(out, "pipe ", *num),
        EffectShown::Pair(num) => push_labelled(out, "pair ", *num),
    }
}

fn push_job_end(out: &mut Page, end: JobShown) -> Result<(), NoMemory>
    ensures { OnOk result (out.new ≡ out.old ++ job_end_name end) }
{
    match end {
        JobShown::Done => out.text("done"),
        JobShown::GaveUp => out.text("gave up"),
        JobShown::JournalFull => out.text("journal full"),
        JobShown::NoMemory => out.text("no memory"),
    }
}

fn push_kept(out: &mut Page, item: &KeptItem) -> Result<(), NoMemory>
    ensures { OnOk result (out.new ≡ out.old ++ kept_line item.now) }
{
    match item {
        KeptItem::Bytes { pipe, bytes } => {
            push_labelled(out, "kept pipe ", *pipe)?;
            out.text(" ")?;
            push_bytes(out, bytes.as_slice())?;
            out.text("\n")
        }
        KeptItem::Message { pair, side, bytes } => push_message(out, *pair, *side, bytes),
    }
}

fn push_total(
    out: &mut Page,
    committed: u64,
    aborted: u64,
    faults: u64,
    remains: u64,
) -> Result<(), NoMemory>
    ensures { OnOk result (out.new ≡ out.old ++ total_text committed aborted faults remains) }
{
    let (faults, remains) = (faults as u128, remains as u128);
    let (committed, aborted) = (committed as usize, aborted as usize);
    push_totals(
        out,
        Totals {
            committed,
            aborted,
            faults,
            remains,
        },
    )
}

fn push_late(out: &mut Page, number: u64, end: LateEnd) -> Result<(), NoMemory>
    ensures { OnOk result (out.new ≡ out.old ++ line_text (line.Late number end)) }
{
    out.labelled("  late ", number)?;
    out.text(" = ")?;
    push_late_end(out, end)?;
    out.text("\n")
}

fn push_undo(out: &mut Page, number: u64, kind: UndoKind, end: &UndoEnd) -> Result<(), NoMemory>
    ensures { OnOk result (out.new ≡ out.old ++ line_text (line.Undo number kind end.now)) }
{
    out.labelled("  undo ", number)?;
    out.text(" ")?;
    push_kind(out, kind)?;
    out.text(" ")?;
    push_undo_end(out, end)?;
    out.text("\n")
}

fn push_remains(out: &mut Page, effect: &EffectShown) -> Result<(), NoMemory>
    ensures { OnOk result (out.new ≡ out.old ++ line_text (line.Remains effect.now)) }
{
    out.text("  remains ")?;
    push_standing(out, effect)?;
    out.text("\n")
}

fn push_job(out: &mut Page, number: u64, block: &Ident, end: JobShown) -> Result<(), NoMemory>
    ensures { OnOk result (out.new ≡ out.old ++ line_text (line.Job number block.now end)) }
{
    out.labelled("job ", number)?;
    out.text(" ")?;
    out.push(block.as_slice())?;
    out.text(" ")?;
    push_job_end(out, end)?;
    out.text("\n")
}

fn push_word(out: &mut Page, at: u64, value: u64) -> Result<(), NoMemory>
    ensures { OnOk result (out.new ≡ out.old ++ line_text (line.Word at value)) }
{
    out.labelled("word ", at)?;
    out.labelled(" ", value)?;
    out.text("\n")
}

/// The line's text, at the end of the page.
pub fn push_line(out: &mut Page, line: &Line) -> Result<(), NoMemory>
    ensures { OnOk result (out.new ≡ out.old ++ line_text line.now) }
{
    match line {
        Line::Head(head) => push_head(out, head),
        Line::Call(call, reply) => push_call_line(out, call, reply),
        Line::Late { number, end } => push_late(out, *number, *end),
        Line::Undo { number, kind, end } => push_undo(out, *number, *kind, end),
        Line::Remains(effect) => push_remains(out, effect),
        Line::Held(claims) => push_held(out, claims.as_slice()),
        Line::Job { number, block, end } => push_job(out, *number, block.value(), *end),
        Line::Word { at, value } => push_word(out, *at, *value),
        Line::Kept(item) => push_kept(out, item),
        Line::Total {
            committed,
            aborted,
            faults,
            remains,
        } => push_total(out, *committed, *aborted, *faults, *remains),
    }
}

// The line as it is printed. There is room for so many bytes at first.
fn line_again(alloc: Global, line: &Line, room: usize) -> Result<Text, NoMemory>
    ensures { IfOk result (λ text. text ≡ line_text line.now) }
{
    let mut page = Page::with_room(alloc, room);
    push_line(&mut page, line)?;
    Ok(page.into_text())
}

// Goes behind these bytes, of which there must be one.
#[tactic(auto, unfolding(crate::specs::Printed::past_some))]
fn pass_some(text: &mut Cursor, front: &[u8]) -> Result<(), ReadStop>
    ensures { PassesFront result text.new (past_some front.now text.old) }
{
    if front.is_empty() {
        return Err(ReadStop::Unread);
    }
    text.pass(front)
}

// Room for the bytes between two places of a text, and a few more: a number's digits are counted when they are there.
fn room_between(from: &Cursor, to: &Cursor) -> usize {
    from.len().saturating_sub(to.len()).saturating_add(FEW)
}

// A line that is printed as it stands here.
#[tactic(auto, unfolding(crate::specs::Printed::printed))]
fn compared<'a>(alloc: Global, text: &mut Cursor<'a>) -> Result<Line, ReadStop>
    ensures { GivesRead result text.new (printed line_at line_text text.old) }
{
    let mut from = text.again();
    let line = any_line(alloc, text)?;
    let again = line_again(alloc, &line, room_between(&from, text))?;
    pass_some(&mut from, again.as_slice())?;
    *text = from;
    Ok(line)
}

/// A line. What is read is printed so; what is printed so is read, unless memory runs out.
pub fn printed_line<'a>(alloc: Global, text: &mut Cursor<'a>) -> Result<Line, ReadStop>
    ensures found { IfOk result (λ line. text.old ≡ line_text line ++ text.new) }
    ensures some { IfOk result (λ line. 0 < length (line_text line)) }
    ensures only { (line : Line) (rest : List ℕ) → IsLineInRange line
        → text.old ≡ line_text line ++ rest → GivesRead result text.new (Some (line, rest)) }
{
    compared(alloc, text)
}
