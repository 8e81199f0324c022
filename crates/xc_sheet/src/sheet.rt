ghost use Rattle.std.specs.Prelude.{◌≡◌, ◌↔◌, ◌+◌, ◌<◌, ◌≤◌, List, ℕ, length, IfOk, Err};
ghost use Rattle.xc_sheet.specs.declared.sheet.Unreadable.TheVariants as unreadable;
ghost use Rattle.xc_data.specs.declared.entry.Entry.{Entry};
ghost use Rattle.xc_data.specs.declared.entry.JobLine.{JobLine};
ghost use Rattle.xc_data.specs.declared.entry.KeptItem.{KeptItem};
ghost use Rattle.xc_print.specs.Text.{rendered};
ghost use Rattle.xc_sheet.specs.declared.ending.Ending.TheVariants.{Whole, Broken};
ghost use Rattle.xc_sheet.specs.EndRanges.{IsEndInRange};
ghost use Rattle.xc_sheet.specs.Ends.{end_lines};
ghost use Rattle.xc_sheet.specs.Sheets.{IsReadSheet, AreAllOf, HaveText, ending_at};

use crate::ending::Ending;
use crate::lines::Line;
use crate::places::LinePlace;
use crate::stepping::add_line;
use std::alloc::Global;
use xc_data::{Items, NoMemory};
use xc_lines::Cursor;

/// The most bytes of a text that is read.
pub const MOST_TEXT_BYTES: usize = 67_108_864;

/// The lines that were read of a text, and how that ended.
#[derive(Drop)]
pub struct Sheet {
    pub lines: Items<Line>,
    pub ending: Ending,
}

/// Why nothing was read.
#[derive(Clone, Copy, Debug, PartialEq, Eq)]
pub enum Unreadable {
    /// The text has more than 67,108,864 bytes.
    TooLong,
    NoMemory,
}

// What was read up to a line that may not stand there.
fn broken(lines: Items<Line>) -> Sheet
    requires { length lines ≤ 67108864 }
    ensures lines { result.lines ≡ lines }
    ensures ending { result.ending ≡ Broken (length lines + 1) }
{
    let line = lines.len() as u32 + 1;
    Sheet {
        lines,
        ending: Ending::Broken { line },
    }
}

// What was read up to the text's end.
fn ended(place: LinePlace, lines: Items<Line>) -> Sheet
    requires { length lines ≤ 67108864 }
    ensures lines { result.lines ≡ lines }
    ensures ending { result.ending ≡ ending_at place lines }
{
    match place {
        LinePlace::Ended => Sheet {
            lines,
            ending: Ending::Whole,
        },
        LinePlace::Between | LinePlace::Commits | LinePlace::Aborts | LinePlace::Lates(_) => broken(
            lines,
        ),
        LinePlace::Undos(_) | LinePlace::Remaining => broken(lines),
        LinePlace::Jobs | LinePlace::Words | LinePlace::Kept => broken(lines),
    }
}

// Each line in its place, up to the text's end or to the first line that may not stand there.
fn read_lines(alloc: Global, text: &[u8]) -> Result<Sheet, NoMemory>
    requires { length text.now ≤ 67108864 }
    ensures read { IfOk result (λ sheet. IsReadSheet text.now sheet.lines sheet.ending) }
    ensures only { IfOk result (λ sheet. AreAllOf text.now sheet.lines sheet.ending) }
    ensures some { IfOk result (λ sheet. HaveText sheet.lines) }
{
    let mut lines = Items::new(alloc);
    let mut place = LinePlace::Between;
    let mut rest = Cursor::new(text);
    while !rest.is_empty() {
        match add_line(alloc, &mut rest, place, &mut lines)? {
            Some(next) => place = next,
            None => return Ok(broken(lines)),
        }
    }
    Ok(ended(place, lines))
}

/// Reads a printed text line by line, each in its place, up to the text's end or the first line that may not stand there.
///
/// Lines that are within their ranges and are a whole text are read as they are; so are those of the printed text of an end. It
/// takes time in proportion to the text. A name that a call or an object has takes a place that is never given back, some 70 bytes,
/// and so does the slot of a late call, some 40 bytes, also where none is named.
pub fn read_sheet(alloc: Global, text: &[u8]) -> Result<Sheet, Unreadable>
    ensures read { IfOk result (λ sheet. IsReadSheet text.now sheet.lines sheet.ending) }
    ensures only { IfOk result (λ sheet. AreAllOf text.now sheet.lines sheet.ending) }
    ensures some { IfOk result (λ sheet. HaveText sheet.lines) }
    ensures printed { (journal : List Entry) (jobs : List JobLine) (words : List ℕ) (kept : List KeptItem)
        → IsEndInRange journal jobs words kept → text.now ≡ rendered journal jobs words kept
        → IfOk result (λ sheet. (sheet.lines ≡ end_lines journal jobs words kept) × (sheet.ending ≡ Whole)) }
    ensures long { (result ≡ Err unreadable.TooLong) ↔ (67108864 < length text.now) }
{
    if text.len() > MOST_TEXT_BYTES {
        return Err(Unreadable::TooLong);
    }
    match read_lines(alloc, text) {
        Ok(sheet) => Ok(sheet),
        Err(NoMemory) => Err(Unreadable::NoMemory),
    }
}
