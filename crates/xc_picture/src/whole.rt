ghost use Rattle.std.specs.Prelude.{◌≡◌, ◌↔◌, ◌++◌, ◌≤◌, ◌<◌, ℕ, List, length, Err, IfOk, OnOk};
ghost use Rattle.xc_picture.specs.Drawn.{elements_of, size_of, picture_text};
ghost use Rattle.xc_picture.specs.Elements.{elements_text};
ghost use Rattle.xc_picture.specs.Pictures.{IsPictureOf};
ghost use Rattle.xc_picture.specs.Scenes.{drawn_scene};
ghost use Rattle.xc_picture.specs.declared.whole.Unpictured.TheVariants as unpictured;
ghost use Rattle.xc_data.specs.declared.entry.Entry.{Entry};
ghost use Rattle.xc_data.specs.declared.entry.JobLine.{JobLine};
ghost use Rattle.xc_data.specs.declared.entry.KeptItem.{KeptItem};
ghost use Rattle.xc_print.specs.Text.{rendered};
ghost use Rattle.xc_sheet.specs.declared.ending.Ending.TheVariants.{Whole};
ghost use Rattle.xc_sheet.specs.declared.sheet.Unreadable.TheVariants as unreadable;
ghost use Rattle.xc_sheet.specs.EndRanges.{IsEndInRange};
ghost use Rattle.xc_sheet.specs.Ends.{end_lines};
ghost use Rattle.xc_sheet.specs.Sheets.{NoLineFits};
ghost use Rattle.xc_sheet.specs.declared.places.LinePlace.TheVariants as place;

use crate::drawing::{column_x, push_arrows, push_bars, spots_of};
use crate::elements::push_front;
use crate::labels::{lane_y, push_break, push_lanes, push_left_out, push_names};
use crate::reading::scene_of;
use crate::scene::Scene;
use crate::shapes::Point;
use std::alloc::Global;
use xc_data::{NoMemory, Text};
use xc_print::Page;
use xc_sheet::{Sheet, Unreadable, read_sheet};

fn size_of(scene: &Scene) -> Point
    requires { length scene.now.bars ≤ 2000 }
    ensures { result ≡ size_of scene.now }
{
    Point {
        x: column_x(scene.bars.len() as u32) + 40,
        y: lane_y(scene.lanes) + 40,
    }
}

fn push_elements(alloc: Global, out: &mut Page, scene: &Scene) -> Result<(), NoMemory>
    ensures { OnOk result (out.new ≡ out.old ++ elements_text (elements_of scene.now)) }
{
    let bars = scene.bars.as_slice();
    let spots = spots_of(alloc, bars)?;
    push_left_out(alloc, out, scene.left_out)?;
    push_break(alloc, out, scene.break_at)?;
    push_lanes(alloc, out, scene.lanes)?;
    push_names(out, scene.names.as_slice())?;
    push_bars(alloc, out, bars)?;
    push_arrows(out, &spots, bars)?;
    Ok(())
}

// The text of the picture of a scene.
fn drawn(alloc: Global, scene: &Scene) -> Result<Text, NoMemory>
    requires { length scene.now.bars ≤ 2000 }
    ensures { IfOk result (λ text. text ≡ picture_text scene.now) }
{
    let mut page = Page::new(alloc);
    push_front(&mut page, size_of(scene))?;
    push_elements(alloc, &mut page, scene)?;
    page.text("</svg>\n")?;
    Ok(page.into_text())
}

/// The picture of a journal that was read, as the text of an SVG file.
///
/// At most 2,000 entries are drawn, and a text in the picture says how many aren't, and where the journal broke, if it did. It takes
/// time in proportion to the lines, but for the map that finds the arrows' ends.
pub fn picture(alloc: Global, sheet: &Sheet) -> Result<Text, NoMemory>
    ensures { IfOk result (λ text. text ≡ picture_text (drawn_scene sheet.now.lines sheet.now.ending)) }
{
    let scene = scene_of(alloc, sheet)?;
    drawn(alloc, &scene)
}

/// Why a text has no picture.
#[derive(Clone, Copy, Debug, PartialEq, Eq)]
pub enum Unpictured {
    /// The text has more than 67,108,864 bytes.
    TooLong,
    /// The text doesn't begin with a line of a journal.
    Unread,
    NoMemory,
}

fn reason_of(why: Unreadable) -> Unpictured
    ensures some { result ≡ unpictured.Unread → ⊥ }
    ensures long { (result ≡ unpictured.TooLong) ↔ (why ≡ unreadable.TooLong) }
{
    match why {
        Unreadable::TooLong => Unpictured::TooLong,
        Unreadable::NoMemory => Unpictured::NoMemory,
    }
}

// The picture of what was read, if there was something to read.
fn picture_of_some(alloc: Global, sheet: &Sheet) -> Result<Text, Unpictured>
    ensures some { IfOk result (λ svg. svg ≡ picture_text (drawn_scene sheet.now.lines sheet.now.ending)) }
    ensures none { result ≡ Err unpictured.Unread → length sheet.now.lines ≡ 0 }
    ensures short { result ≡ Err unpictured.TooLong → ⊥ }
{
    if sheet.lines.is_empty() {
        return Err(Unpictured::Unread);
    }
    match picture(alloc, sheet) {
        Ok(svg) => Ok(svg),
        Err(NoMemory) => Err(Unpictured::NoMemory),
    }
}

/// Reads a text, and gives the picture of what was read. That of an end within its ranges, from its printed text, is that of its
/// lines.
#[tactic(auto, using(crate::proofs::Unread::nothing_read))]
pub fn picture_of(alloc: Global, text: &[u8]) -> Result<Text, Unpictured>
    ensures picture { IfOk result (λ svg. IsPictureOf text.now svg) }
    ensures printed { (journal : List Entry) (jobs : List JobLine) (words : List ℕ) (kept : List KeptItem)
        → IsEndInRange journal jobs words kept → text.now ≡ rendered journal jobs words kept
        → IfOk result (λ svg. svg ≡ picture_text (drawn_scene (end_lines journal jobs words kept) Whole)) }
    ensures long { (result ≡ Err unpictured.TooLong) ↔ (67108864 < length text.now) }
    ensures unread { result ≡ Err unpictured.Unread → NoLineFits place.Between text.now }
{
    let sheet = match read_sheet(alloc, text) {
        Ok(sheet) => sheet,
        Err(why) => return Err(reason_of(why)),
    };
    picture_of_some(alloc, &sheet)
}
