ghost use Rattle.std.specs.Prelude.{◌≡◌, ◌++◌, ◌∷◌, [], IfOk, IfErr, IfSome, None};
ghost use Rattle.xc_lines.specs.declared.stop.ReadStop.TheVariants as stop;
ghost use Rattle.xc_sheet.specs.declared.lines.Line.{Line};
ghost use Rattle.xc_sheet.specs.Sheets.{NoLineFits, IsLineRead};

use crate::lines::Line;
use crate::places::LinePlace;
use crate::printed::printed_line;
use std::alloc::Global;
use xc_data::{Items, NoMemory};
use xc_lines::{Cursor, ReadStop};

/// The line that stands here, where it may stand in this place, and the place behind it. `Unread` where no line that may
/// stand in this place stands here; the cursor is then anywhere.
pub fn next_line<'a>(
    alloc: Global,
    text: &mut Cursor<'a>,
    place: LinePlace,
) -> Result<(Line, LinePlace), ReadStop>
    ensures read { IfOk result (λ p. IsLineRead p.0 place p.1 text.old text.new) }
    ensures none { IfErr result (λ e. e ≡ stop.Unread → NoLineFits place text.old) }
{
    let line = printed_line(alloc, text)?;
    match place.behind(&line) {
        Some(next) => Ok((line, next)),
        None => Err(ReadStop::Unread),
    }
}

/// Reads a line more, in its place, and answers the place behind it; `None` where no line may stand there.
pub fn add_line<'a>(
    alloc: Global,
    text: &mut Cursor<'a>,
    place: LinePlace,
    lines: &mut Items<Line>,
) -> Result<Option<LinePlace>, NoMemory>
    ensures read { IfOk result (λ next. IfSome next (λ next.
        (l : Line) × (lines.new ≡ lines.old ++ l ∷ []) × IsLineRead l place next text.old text.new)) }
    ensures none { IfOk result (λ next. next ≡ None → NoLineFits place text.old) }
    ensures same { IfOk result (λ next. next ≡ None → lines.new ≡ lines.old) }
{
    match next_line(alloc, text, place) {
        Ok((line, next)) => {
            lines.push(line)?;
            Ok(Some(next))
        }
        Err(ReadStop::Unread) => Ok(None),
        Err(ReadStop::NoMemory) => Err(NoMemory),
    }
}
