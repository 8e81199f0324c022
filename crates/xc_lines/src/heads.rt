ghost use Rattle.std.specs.Prelude.{◌≡◌};
ghost use Rattle.xc_lines.specs.Parts.{GivesRead};
ghost use Rattle.xc_lines.specs.Heads.{conflict_at, revoked_at, stuck_at, no_memory_at, cause_at, attempt_at};
ghost use Rattle.xc_lines.specs.Heads.{commit_at, abort_at, head_at};

use crate::cursor::Cursor;
use crate::objects::read_object;
use crate::stop::ReadStop;
use std::alloc::Global;
use xc_data::Cause;

/// The first line of an entry; a commit has no cause.
#[derive(Debug, Drop)]
pub struct Head {
    pub tx: u32,
    pub job: u32,
    pub rank: u32,
    pub began: u32,
    pub cause: Option<Cause>,
}

#[tactic(auto, unfolding(crate::specs::Heads::conflict_at))]
fn conflict(alloc: Global, text: &mut Cursor) -> Result<Cause, ReadStop>
    ensures { GivesRead result text.new (conflict_at text.old) }
{
    let object = read_object(alloc, text)?;
    text.pass(b" holder t")?;
    let holder = text.small()?;
    text.pass(b" at ")?;
    let at = text.small()?;
    Ok(Cause::Conflict { object, holder, at })
}

#[tactic(auto, unfolding(crate::specs::Heads::revoked_at))]
fn revoked(alloc: Global, text: &mut Cursor) -> Result<Cause, ReadStop>
    ensures { GivesRead result text.new (revoked_at text.old) }
{
    let object = read_object(alloc, text)?;
    text.pass(b" by t")?;
    let by = text.small()?;
    text.pass(b" at ")?;
    let at = text.small()?;
    Ok(Cause::Revoked { object, by, at })
}

#[tactic(auto, unfolding(crate::specs::Heads::stuck_at))]
fn stuck(text: &mut Cursor) -> Result<Cause, ReadStop>
    ensures { GivesRead result text.new (stuck_at text.old) }
{
    let failed = text.small()?;
    Ok(Cause::Stuck { failed })
}

#[tactic(auto, unfolding(crate::specs::Heads::no_memory_at))]
fn no_memory(text: &mut Cursor) -> Result<Cause, ReadStop>
    ensures { GivesRead result text.new (no_memory_at text.old) }
{
    text.pass(b"no memory")?;
    Ok(Cause::NoMemory)
}

#[tactic(auto, unfolding(crate::specs::Heads::cause_at))]
fn cause(alloc: Global, text: &mut Cursor) -> Result<Cause, ReadStop>
    ensures { GivesRead result text.new (cause_at text.old) }
{
    if text.passes(b"asked") {
        return Ok(Cause::Asked);
    }
    if text.passes(b"conflict ") {
        return conflict(alloc, text);
    }
    if text.passes(b"revoked ") {
        return revoked(alloc, text);
    }
    if text.passes(b"stuck undo ") {
        return stuck(text);
    }
    no_memory(text)
}

#[tactic(auto, unfolding(crate::specs::Heads::attempt_at))]
fn attempt(text: &mut Cursor) -> Result<Head, ReadStop>
    ensures { GivesRead result text.new (attempt_at text.old) }
{
    text.pass(b" t")?;
    let tx = text.small()?;
    text.pass(b" job ")?;
    let job = text.small()?;
    text.pass(b" rank ")?;
    let rank = text.small()?;
    text.pass(b" began ")?;
    let began = text.small()?;
    let cause = None;
    Ok(Head {
        tx,
        job,
        rank,
        began,
        cause,
    })
}

#[tactic(auto, unfolding(crate::specs::Heads::commit_at))]
fn commit(text: &mut Cursor) -> Result<Head, ReadStop>
    ensures { GivesRead result text.new (commit_at text.old) }
{
    let head = attempt(text)?;
    text.pass(b"\n")?;
    Ok(head)
}

#[tactic(auto, unfolding(crate::specs::Heads::abort_at))]
fn abort(alloc: Global, text: &mut Cursor) -> Result<Head, ReadStop>
    ensures { GivesRead result text.new (abort_at text.old) }
{
    let head = attempt(text)?;
    text.pass(b" ")?;
    let cause = cause(alloc, text)?;
    text.pass(b"\n")?;
    Ok(Head {
        tx: head.tx,
        job: head.job,
        rank: head.rank,
        began: head.began,
        cause: Some(cause),
    })
}

/// The first line of an entry.
#[tactic(auto, unfolding(crate::specs::Heads::head_at))]
pub fn read_head(alloc: Global, text: &mut Cursor) -> Result<Head, ReadStop>
    ensures { GivesRead result text.new (head_at text.old) }
{
    if text.passes(b"commit") {
        return commit(text);
    }
    if text.passes(b"abort") {
        return abort(alloc, text);
    }
    Err(ReadStop::Unread)
}
