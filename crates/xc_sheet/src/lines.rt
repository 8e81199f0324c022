ghost use Rattle.std.specs.Prelude.{◌≡◌};
ghost use Rattle.xc_lines.specs.Parts.{GivesRead, mapped};
ghost use Rattle.xc_lines.specs.Heads.{head_at};
ghost use Rattle.xc_sheet.specs.Lines.{late_line_at, undo_line_at, remains_line_at, call_line_at, job_line_at, word_line_at, kept_line_at};
ghost use Rattle.xc_sheet.specs.Lines.{total_line_at, held_line_at, inner_line_at, line_at};
ghost use Rattle.xc_sheet.specs.declared.lines.Line.TheVariants as line;

use std::alloc::Global;
use xc_data::{Boxed, Call, HeldList, Ident, KeptItem, LateEnd, Reply, UndoEnd};
use xc_lines::{
    Cursor, EffectShown, Head, JobShown, ReadStop, UndoKind, read_call, read_claim, read_further,
    read_head, read_job_end, read_kept, read_kind, read_late_end, read_reply, read_standing,
    read_undo_end,
};

/// A line of a text, as the text shows it.
#[derive(Drop)]
pub enum Line {
    Head(Head),
    Call(Call, Reply),
    Late {
        number: u64,
        end: LateEnd,
    },
    Undo {
        number: u64,
        kind: UndoKind,
        end: UndoEnd,
    },
    Remains(EffectShown),
    Held(HeldList),
    Job {
        number: u64,
        block: Boxed<Ident>,
        end: JobShown,
    },
    Word {
        at: u64,
        value: u64,
    },
    Kept(KeptItem),
    Total {
        committed: u64,
        aborted: u64,
        faults: u64,
        remains: u64,
    },
}

#[tactic(auto, unfolding(crate::specs::Lines::late_line_at))]
fn late_line(text: &mut Cursor) -> Result<Line, ReadStop>
    ensures { GivesRead result text.new (late_line_at text.old) }
{
    let number = text.number()?;
    text.pass(b" = ")?;
    let end = read_late_end(text)?;
    text.pass(b"\n")?;
    Ok(Line::Late { number, end })
}

#[tactic(auto, unfolding(crate::specs::Lines::undo_line_at))]
fn undo_line(text: &mut Cursor) -> Result<Line, ReadStop>
    ensures { GivesRead result text.new (undo_line_at text.old) }
{
    let number = text.number()?;
    text.pass(b" ")?;
    let kind = read_kind(text)?;
    text.pass(b" ")?;
    let end = read_undo_end(text)?;
    text.pass(b"\n")?;
    Ok(Line::Undo { number, kind, end })
}

#[tactic(auto, unfolding(crate::specs::Lines::remains_line_at))]
fn remains_line(alloc: Global, text: &mut Cursor) -> Result<Line, ReadStop>
    ensures { GivesRead result text.new (remains_line_at text.old) }
{
    let effect = read_standing(alloc, text)?;
    text.pass(b"\n")?;
    Ok(Line::Remains(effect))
}

#[tactic(auto, unfolding(crate::specs::Lines::call_line_at))]
fn call_line(alloc: Global, text: &mut Cursor) -> Result<Line, ReadStop>
    ensures { GivesRead result text.new (call_line_at text.old) }
{
    let call = read_call(alloc, text)?;
    text.pass(b" = ")?;
    let reply = read_reply(alloc, text)?;
    text.pass(b"\n")?;
    Ok(Line::Call(call, reply))
}

#[tactic(auto, unfolding(crate::specs::Lines::job_line_at))]
fn job_line(alloc: Global, text: &mut Cursor) -> Result<Line, ReadStop>
    ensures { GivesRead result text.new (job_line_at text.old) }
{
    let number = text.number()?;
    text.pass(b" ")?;
    let block = Boxed::new(alloc, text.ident()?)?;
    text.pass(b" ")?;
    let end = read_job_end(text)?;
    text.pass(b"\n")?;
    Ok(Line::Job { number, block, end })
}

#[tactic(auto, unfolding(crate::specs::Lines::word_line_at))]
fn word_line(text: &mut Cursor) -> Result<Line, ReadStop>
    ensures { GivesRead result text.new (word_line_at text.old) }
{
    let at = text.number()?;
    text.pass(b" ")?;
    let value = text.number()?;
    text.pass(b"\n")?;
    Ok(Line::Word { at, value })
}

#[tactic(auto, unfolding(crate::specs::Lines::kept_line_at))]
fn kept_line(alloc: Global, text: &mut Cursor) -> Result<Line, ReadStop>
    ensures { GivesRead result text.new (kept_line_at text.old) }
{
    let kept = read_kept(alloc, text)?;
    text.pass(b"\n")?;
    Ok(Line::Kept(kept))
}

#[tactic(auto, unfolding(crate::specs::Lines::total_line_at))]
fn total_line(text: &mut Cursor) -> Result<Line, ReadStop>
    ensures { GivesRead result text.new (total_line_at text.old) }
{
    let committed = text.number()?;
    text.pass(b" committed, ")?;
    let aborted = text.number()?;
    text.pass(b" aborted, ")?;
    let faults = text.number()?;
    text.pass(b" faults, ")?;
    let remains = text.number()?;
    text.pass(b" remains\n")?;
    Ok(Line::Total {
        committed,
        aborted,
        faults,
        remains,
    })
}

#[tactic(auto, unfolding(crate::specs::Lines::held_line_at))]
fn held_line(alloc: Global, text: &mut Cursor) -> Result<Line, ReadStop>
    ensures { GivesRead result text.new (held_line_at text.old) }
{
    let first = read_claim(alloc, text)?;
    let mut claims = HeldList::new(alloc);
    claims.push(first)?;
    let claims = read_further(alloc, text, claims)?;
    text.pass(b"\n")?;
    Ok(Line::Held(claims))
}

fn head_line(alloc: Global, text: &mut Cursor) -> Result<Line, ReadStop>
    ensures { GivesRead result text.new (mapped (λ head. line.Head head) (head_at text.old)) }
{
    let head = read_head(alloc, text)?;
    Ok(Line::Head(head))
}

#[tactic(auto, unfolding(crate::specs::Lines::inner_line_at))]
fn inner_line(alloc: Global, text: &mut Cursor) -> Result<Line, ReadStop>
    ensures { GivesRead result text.new (inner_line_at text.old) }
{
    if text.passes(b"late ") {
        return late_line(text);
    }
    if text.passes(b"undo ") {
        return undo_line(text);
    }
    if text.passes(b"remains ") {
        return remains_line(alloc, text);
    }
    if text.passes(b"held ") {
        return held_line(alloc, text);
    }
    call_line(alloc, text)
}

#[tactic(auto, unfolding(crate::specs::Lines::line_at))]
pub fn any_line(alloc: Global, text: &mut Cursor) -> Result<Line, ReadStop>
    ensures { GivesRead result text.new (line_at text.old) }
{
    if text.passes(b"  ") {
        return inner_line(alloc, text);
    }
    if text.passes(b"job ") {
        return job_line(alloc, text);
    }
    if text.passes(b"word ") {
        return word_line(text);
    }
    if text.passes(b"kept ") {
        return kept_line(alloc, text);
    }
    if text.passes(b"total ") {
        return total_line(text);
    }
    head_line(alloc, text)
}
