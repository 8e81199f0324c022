ghost use Rattle.std.specs.Prelude.{◌≡◌};
ghost use Rattle.xc_lines.specs.Parts.{GivesRead, name_at};
ghost use Rattle.xc_lines.specs.Tails.{kind_at, undone_at, failed_at, blocked_at, undo_end_at};
ghost use Rattle.xc_lines.specs.Tails.{overwrite_stands_at, tail_stands_at, made_stands_at, moved_stands_at};
ghost use Rattle.xc_lines.specs.Tails.{pipe_stands_at, pair_stands_at, standing_at, job_end_at, kept_pipe_at, kept_pair_at, kept_at};

use crate::cursor::Cursor;
use crate::shown::{EffectShown, JobShown, UndoKind};
use crate::stop::ReadStop;
use std::alloc::Global;
use xc_data::{Boxed, KeptItem, Name, UndoEnd};

/// What a record is of.
#[tactic(auto, unfolding(crate::specs::Tails::kind_at))]
pub fn read_kind(text: &mut Cursor) -> Result<UndoKind, ReadStop>
    ensures { GivesRead result text.new (kind_at text.old) }
{
    if text.passes(b"bytes") {
        return Ok(UndoKind::Bytes);
    }
    if text.passes(b"tail") {
        return Ok(UndoKind::Tail);
    }
    if text.passes(b"made") {
        return Ok(UndoKind::Made);
    }
    if text.passes(b"moved") {
        return Ok(UndoKind::Moved);
    }
    if text.passes(b"pipe") {
        return Ok(UndoKind::Pipe);
    }
    if text.passes(b"pair") {
        return Ok(UndoKind::Pair);
    }
    Err(ReadStop::Unread)
}

#[tactic(auto, unfolding(crate::specs::Tails::undone_at))]
fn undone(text: &mut Cursor) -> Result<UndoEnd, ReadStop>
    ensures { GivesRead result text.new (undone_at text.old) }
{
    let faults = text.small()?;
    Ok(UndoEnd::Undone { faults })
}

#[tactic(auto, unfolding(crate::specs::Tails::failed_at))]
fn failed(text: &mut Cursor) -> Result<UndoEnd, ReadStop>
    ensures { GivesRead result text.new (failed_at text.old) }
{
    let done = text.small()?;
    text.pass(b" faults ")?;
    let faults = text.small()?;
    Ok(UndoEnd::Failed { done, faults })
}

#[tactic(auto, unfolding(crate::specs::Tails::blocked_at))]
fn blocked(text: &mut Cursor) -> Result<UndoEnd, ReadStop>
    ensures { GivesRead result text.new (blocked_at text.old) }
{
    let by = text.small()?;
    Ok(UndoEnd::Blocked { by })
}

/// How a compensation ended.
#[tactic(auto, unfolding(crate::specs::Tails::undo_end_at))]
pub fn read_undo_end(text: &mut Cursor) -> Result<UndoEnd, ReadStop>
    ensures { GivesRead result text.new (undo_end_at text.old) }
{
    if text.passes(b"done faults ") {
        return undone(text);
    }
    if text.passes(b"failed restored ") {
        return failed(text);
    }
    if text.passes(b"blocked by ") {
        return blocked(text);
    }
    Err(ReadStop::Unread)
}

#[tactic(auto, unfolding(crate::specs::Tails::overwrite_stands_at))]
fn overwrite_stands(alloc: Global, text: &mut Cursor) -> Result<EffectShown, ReadStop>
    ensures { GivesRead result text.new (overwrite_stands_at text.old) }
{
    let file = text.num()?;
    text.pass(b" at ")?;
    let at = text.number()?;
    text.pass(b" ")?;
    let bytes = text.bytes(alloc)?;
    Ok(EffectShown::Bytes { file, at, bytes })
}

#[tactic(auto, unfolding(crate::specs::Tails::tail_stands_at))]
fn tail_stands(alloc: Global, text: &mut Cursor) -> Result<EffectShown, ReadStop>
    ensures { GivesRead result text.new (tail_stands_at text.old) }
{
    let file = text.num()?;
    text.pass(b" from ")?;
    let from = text.small()?;
    text.pass(b" ")?;
    let bytes = text.bytes(alloc)?;
    Ok(EffectShown::Tail { file, from, bytes })
}

// A name in a place of its own, which goes with it.
fn boxed_name(alloc: Global, text: &mut Cursor) -> Result<Boxed<Name>, ReadStop>
    ensures { GivesRead result text.new (name_at text.old) }
{
    let name = text.name()?;
    Ok(Boxed::new(alloc, name)?)
}

#[tactic(auto, unfolding(crate::specs::Tails::made_stands_at))]
fn made_stands(alloc: Global, text: &mut Cursor) -> Result<EffectShown, ReadStop>
    ensures { GivesRead result text.new (made_stands_at text.old) }
{
    let name = boxed_name(alloc, text)?;
    text.pass(b" file ")?;
    let num = text.num()?;
    Ok(EffectShown::Made { name, num })
}

#[tactic(auto, unfolding(crate::specs::Tails::moved_stands_at))]
fn moved_stands(alloc: Global, text: &mut Cursor) -> Result<EffectShown, ReadStop>
    ensures { GivesRead result text.new (moved_stands_at text.old) }
{
    let from = boxed_name(alloc, text)?;
    text.pass(b" ")?;
    let to = boxed_name(alloc, text)?;
    Ok(EffectShown::Moved { from, to })
}

#[tactic(auto, unfolding(crate::specs::Tails::pipe_stands_at))]
fn pipe_stands(text: &mut Cursor) -> Result<EffectShown, ReadStop>
    ensures { GivesRead result text.new (pipe_stands_at text.old) }
{
    let num = text.num()?;
    Ok(EffectShown::Pipe(num))
}

#[tactic(auto, unfolding(crate::specs::Tails::pair_stands_at))]
fn pair_stands(text: &mut Cursor) -> Result<EffectShown, ReadStop>
    ensures { GivesRead result text.new (pair_stands_at text.old) }
{
    let num = text.num()?;
    Ok(EffectShown::Pair(num))
}

/// An effect that remains.
#[tactic(auto, unfolding(crate::specs::Tails::standing_at))]
pub fn read_standing(alloc: Global, text: &mut Cursor) -> Result<EffectShown, ReadStop>
    ensures { GivesRead result text.new (standing_at text.old) }
{
    if text.passes(b"bytes file ") {
        return overwrite_stands(alloc, text);
    }
    if text.passes(b"tail file ") {
        return tail_stands(alloc, text);
    }
    if text.passes(b"made ") {
        return made_stands(alloc, text);
    }
    if text.passes(b"moved ") {
        return moved_stands(alloc, text);
    }
    if text.passes(b"pipe ") {
        return pipe_stands(text);
    }
    if text.passes(b"pair ") {
        return pair_stands(text);
    }
    Err(ReadStop::Unread)
}

/// How a job ended.
#[tactic(auto, unfolding(crate::specs::Tails::job_end_at))]
pub fn read_job_end(text: &mut Cursor) -> Result<JobShown, ReadStop>
    ensures { GivesRead result text.new (job_end_at text.old) }
{
    if text.passes(b"done") {
        return Ok(JobShown::Done);
    }
    if text.passes(b"gave up") {
        return Ok(JobShown::GaveUp);
    }
    if text.passes(b"journal full") {
        return Ok(JobShown::JournalFull);
    }
    if text.passes(b"no memory") {
        return Ok(JobShown::NoMemory);
    }
    Err(ReadStop::Unread)
}

#[tactic(auto, unfolding(crate::specs::Tails::kept_pipe_at))]
fn kept_pipe(alloc: Global, text: &mut Cursor) -> Result<KeptItem, ReadStop>
    ensures { GivesRead result text.new (kept_pipe_at text.old) }
{
    let pipe = text.num()?;
    text.pass(b" ")?;
    let bytes = text.bytes(alloc)?;
    Ok(KeptItem::Bytes { pipe, bytes })
}

#[tactic(auto, unfolding(crate::specs::Tails::kept_pair_at))]
fn kept_pair(alloc: Global, text: &mut Cursor) -> Result<KeptItem, ReadStop>
    ensures { GivesRead result text.new (kept_pair_at text.old) }
{
    let pair = text.num()?;
    text.pass(b" side ")?;
    let side = text.byte()?;
    text.pass(b" ")?;
    let bytes = text.bytes(alloc)?;
    Ok(KeptItem::Message { pair, side, bytes })
}

/// Kept data, behind the first word of their line.
#[tactic(auto, unfolding(crate::specs::Tails::kept_at))]
pub fn read_kept(alloc: Global, text: &mut Cursor) -> Result<KeptItem, ReadStop>
    ensures { GivesRead result text.new (kept_at text.old) }
{
    if text.passes(b"pipe ") {
        return kept_pipe(alloc, text);
    }
    if text.passes(b"pair ") {
        return kept_pair(alloc, text);
    }
    Err(ReadStop::Unread)
}
