ghost use Rattle.std.specs.Prelude.{◌≡◌};
ghost use Rattle.xc_lines.specs.Parts.{GivesRead, word_object_at, name_object_at, file_object_at, pipe_object_at, pair_object_at};
ghost use Rattle.xc_lines.specs.Parts.{jobs_object_at, any_object_at};

use crate::cursor::Cursor;
use crate::stop::ReadStop;
use std::alloc::Global;
use xc_data::{Object, SharedName};

#[tactic(auto, unfolding(crate::specs::Parts::word_object_at))]
fn word_object(text: &mut Cursor) -> Result<Object, ReadStop>
    ensures { GivesRead result text.new (word_object_at text.old) }
{
    let at = text.small()?;
    Ok(Object::Word(at))
}

#[tactic(auto, unfolding(crate::specs::Parts::name_object_at))]
fn name_object(alloc: Global, text: &mut Cursor) -> Result<Object, ReadStop>
    ensures { GivesRead result text.new (name_object_at text.old) }
{
    let name = SharedName::new(alloc, text.name()?)?;
    Ok(Object::Name(name))
}

#[tactic(auto, unfolding(crate::specs::Parts::file_object_at))]
fn file_object(text: &mut Cursor) -> Result<Object, ReadStop>
    ensures { GivesRead result text.new (file_object_at text.old) }
{
    let num = text.num()?;
    Ok(Object::File(num))
}

#[tactic(auto, unfolding(crate::specs::Parts::pipe_object_at))]
fn pipe_object(text: &mut Cursor) -> Result<Object, ReadStop>
    ensures { GivesRead result text.new (pipe_object_at text.old) }
{
    let num = text.num()?;
    Ok(Object::Pipe(num))
}

#[tactic(auto, unfolding(crate::specs::Parts::pair_object_at))]
fn pair_object(text: &mut Cursor) -> Result<Object, ReadStop>
    ensures { GivesRead result text.new (pair_object_at text.old) }
{
    let num = text.num()?;
    Ok(Object::Pair(num))
}

#[tactic(auto, unfolding(crate::specs::Parts::jobs_object_at))]
fn jobs_object(text: &mut Cursor) -> Result<Object, ReadStop>
    ensures { GivesRead result text.new (jobs_object_at text.old) }
{
    text.pass(b"jobs")?;
    Ok(Object::Jobs)
}

/// An object. A name's place is never given back: it takes some 70 bytes.
#[tactic(auto, unfolding(crate::specs::Parts::any_object_at))]
pub fn read_object(alloc: Global, text: &mut Cursor) -> Result<Object, ReadStop>
    ensures { GivesRead result text.new (any_object_at text.old) }
{
    if text.passes(b"word ") {
        return word_object(text);
    }
    if text.passes(b"name ") {
        return name_object(alloc, text);
    }
    if text.passes(b"file ") {
        return file_object(text);
    }
    if text.passes(b"pipe ") {
        return pipe_object(text);
    }
    if text.passes(b"pair ") {
        return pair_object(text);
    }
    jobs_object(text)
}
