ghost use Rattle.std.specs.Bool.{Decides};
ghost use Rattle.std.specs.Prelude.{◌≡◌, ◌↔◌, ◌∷◌, List, IfOk, MatchOption, Some};
ghost use Rattle.xc_buffers.specs.Items.{is_fit};
ghost use Rattle.xc_sheet.specs.declared.lines.Line.{Line as PlainLine};
ghost use Rattle.xc_tail.specs.KeptLines.{HasKeptLines, Stands, comes_behind};

use xc_buffers::Endpoint;
use xc_data::{KeptItem, MOST_CALL_BYTES, NoMemory};
use xc_machine::World;
use xc_sheet::Line;

// An item has some bytes, or is a message of at most 1,024 for a side that there is.
fn is_fit(item: &KeptItem) -> bool
    ensures { result ≡ is_fit item.now }
{
    match item {
        KeptItem::Bytes { bytes, .. } => bytes.len() >= 1,
        KeptItem::Message { side, bytes, .. } => *side < 2
            && bytes.len() <= MOST_CALL_BYTES as usize,
    }
}

// An item comes behind one of this source: a side of a pair may have several messages, and all bytes of a pipe are one item.
fn comes_behind(before: Option<Endpoint>, item: &KeptItem) -> bool
    ensures { result ≡ comes_behind before item.now }
{
    let Some(before) = before else {
        return true;
    };
    let source = Endpoint::of(item);
    match item {
        KeptItem::Bytes { .. } => before.is_before(source),
        KeptItem::Message { .. } => !source.is_before(before),
    }
}

// Takes what a line shows out of the world, where that is in front there and may come next. Where it was taken.
fn take_line(
    world: &mut World,
    before: Option<Endpoint>,
    line: &Line,
) -> Result<Option<Endpoint>, NoMemory>
    ensures { IfOk result (λ found. (lines : List PlainLine) → MatchOption found (Stands world.old before (line.now ∷ lines) → ⊥)
        (λ source. Stands world.old before (line.now ∷ lines) ↔ Stands world.new (Some source) lines)) }
{
    let Line::Kept(item) = line else {
        return Ok(None);
    };
    if !is_fit(item) || !comes_behind(before, item) {
        return Ok(None);
    }
    if !world.take_front(item)? {
        return Ok(None);
    }
    Ok(Some(Endpoint::of(item)))
}

/// The lines are those of data that is kept in front of what some host holds, so that together they are the world's.
pub(crate) fn are_kept(mut world: World, lines: &[Line]) -> Result<bool, NoMemory>
    ensures { IfOk result (λ yes. Decides yes (HasKeptLines world lines.now)) }
{
    let mut before = None;
    for line in lines {
        let source = take_line(&mut world, before, line)?;
        if source.is_none() {
            return Ok(false);
        }
        before = source;
    }
    Ok(true)
}
