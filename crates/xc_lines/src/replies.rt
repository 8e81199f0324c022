ghost use Rattle.std.specs.Prelude.{◌≡◌};
ghost use Rattle.xc_lines.specs.Parts.{GivesRead};
ghost use Rattle.xc_lines.specs.Replies.{got_from, fault_at, made_from, count_at, undone_reply_at, refused_reply_at};
ghost use Rattle.xc_lines.specs.Replies.{plain_at, reply_at};
ghost use Rattle.xc_lines.specs.Replies.{full_at, late_fault_at, no_memory_end_at, late_end_at};

use crate::cursor::Cursor;
use crate::stop::ReadStop;
use std::alloc::Global;
use xc_data::{LateEnd, Reply};

#[tactic(auto, unfolding(crate::specs::Replies::got_from))]
fn got(alloc: Global, text: &mut Cursor) -> Result<Reply, ReadStop>
    ensures { GivesRead result text.new (got_from text.old) }
{
    let bytes = text.literal(alloc)?;
    Ok(Reply::Got(bytes))
}

#[tactic(auto, unfolding(crate::specs::Replies::fault_at))]
fn fault(text: &mut Cursor) -> Result<Reply, ReadStop>
    ensures { GivesRead result text.new (fault_at text.old) }
{
    let n = text.small()?;
    Ok(Reply::Fault(n))
}

#[tactic(auto, unfolding(crate::specs::Replies::made_from))]
fn made(text: &mut Cursor) -> Result<Reply, ReadStop>
    ensures { GivesRead result text.new (made_from text.old) }
{
    let h = text.bare_handle()?;
    if text.passes(b" ") {
        let g = text.handle()?;
        return Ok(Reply::MadePair(h, g));
    }
    Ok(Reply::Made(h))
}

#[tactic(auto, unfolding(crate::specs::Replies::count_at))]
fn count(text: &mut Cursor) -> Result<Reply, ReadStop>
    ensures { GivesRead result text.new (count_at text.old) }
{
    let n = text.number()?;
    Ok(Reply::Number(n))
}

#[tactic(auto, unfolding(crate::specs::Replies::undone_reply_at))]
fn undone(text: &mut Cursor) -> Result<Reply, ReadStop>
    ensures { GivesRead result text.new (undone_reply_at text.old) }
{
    let n = text.small()?;
    Ok(Reply::Undone(n))
}

#[tactic(auto, unfolding(crate::specs::Replies::refused_reply_at))]
fn refusal(text: &mut Cursor) -> Result<Reply, ReadStop>
    ensures { GivesRead result text.new (refused_reply_at text.old) }
{
    if text.passes(b"no name") {
        return Ok(Reply::NoName);
    }
    if text.passes(b"exists") {
        return Ok(Reply::Exists);
    }
    if text.passes(b"bad handle") {
        return Ok(Reply::BadHandle);
    }
    if text.passes(b"past end") {
        return Ok(Reply::PastEnd);
    }
    if text.passes(b"too big") {
        return Ok(Reply::TooBig);
    }
    if text.passes(b"too much") {
        return Ok(Reply::TooMuch);
    }
    if text.passes(b"bad word") {
        return Ok(Reply::BadWord);
    }
    count(text)
}

#[tactic(auto, unfolding(crate::specs::Replies::plain_at))]
fn plain(text: &mut Cursor) -> Result<Reply, ReadStop>
    ensures { GivesRead result text.new (plain_at text.old) }
{
    if text.passes(b"done") {
        return Ok(Reply::Done);
    }
    if text.passes(b"end") {
        return Ok(Reply::End);
    }
    if text.passes(b"empty") {
        return Ok(Reply::Empty);
    }
    if text.passes(b"late") {
        return Ok(Reply::Late);
    }
    refusal(text)
}

/// A reply, which stands here without what is before it.
#[tactic(auto, unfolding(crate::specs::Replies::reply_at))]
pub fn read_reply(alloc: Global, text: &mut Cursor) -> Result<Reply, ReadStop>
    ensures { GivesRead result text.new (reply_at text.old) }
{
    if text.passes(b"fault ") {
        return fault(text);
    }
    if text.passes(b"\"") {
        return got(alloc, text);
    }
    if text.passes(b"h") {
        return made(text);
    }
    if text.passes(b"done faults ") {
        return undone(text);
    }
    plain(text)
}

#[tactic(auto, unfolding(crate::specs::Replies::full_at))]
fn full(text: &mut Cursor) -> Result<LateEnd, ReadStop>
    ensures { GivesRead result text.new (full_at text.old) }
{
    let n = text.small()?;
    Ok(LateEnd::Full(n))
}

#[tactic(auto, unfolding(crate::specs::Replies::late_fault_at))]
fn late_fault(text: &mut Cursor) -> Result<LateEnd, ReadStop>
    ensures { GivesRead result text.new (late_fault_at text.old) }
{
    let n = text.small()?;
    Ok(LateEnd::Fault(n))
}

#[tactic(auto, unfolding(crate::specs::Replies::no_memory_end_at))]
fn no_memory_end(text: &mut Cursor) -> Result<LateEnd, ReadStop>
    ensures { GivesRead result text.new (no_memory_end_at text.old) }
{
    let n = text.small()?;
    Ok(LateEnd::NoMemory(n))
}

/// The end of a late call.
#[tactic(auto, unfolding(crate::specs::Replies::late_end_at))]
pub fn read_late_end(text: &mut Cursor) -> Result<LateEnd, ReadStop>
    ensures { GivesRead result text.new (late_end_at text.old) }
{
    if text.passes(b"done") {
        return Ok(LateEnd::Done);
    }
    if text.passes(b"full ") {
        return full(text);
    }
    if text.passes(b"shut") {
        return Ok(LateEnd::Shut);
    }
    if text.passes(b"no name") {
        return Ok(LateEnd::NoName);
    }
    if text.passes(b"no script") {
        return Ok(LateEnd::NoScript);
    }
    if text.passes(b"fault ") {
        return late_fault(text);
    }
    if text.passes(b"no memory ") {
        return no_memory_end(text);
    }
    Err(ReadStop::Unread)
}
