ghost use Rattle.std.specs.Prelude.{◌≡◌, ◌++◌, ◌≤◌, ◌^◌, codes, Some, IfOk, OnOk};
ghost use Rattle.std.specs.Fmt.{decimal};
ghost use Rattle.xc_picture.specs.Drawn.{lane_point, lane_label, lane_element, lane_labels, name_labels, left_out_note, break_note};
ghost use Rattle.xc_picture.specs.Places.{lane_y};
ghost use Rattle.xc_picture.specs.Elements.{Label, element_text, elements_text};

use crate::elements::push_label;
use crate::scene::LaneName;
use crate::shapes::Point;
use std::alloc::Global;
use xc_data::{NoMemory, Text};
use xc_print::Page;

/// The top of a lane.
pub fn lane_y(lane: u32) -> u64
    ensures place { result ≡ lane_y lane }
    ensures bound { result ≤ 2 ^ 37 }
{
    12 + 28 * lane as u64
}

// Where a text of a lane begins.
fn lane_point(x: u64, lane: u32) -> Point
    ensures { result ≡ lane_point x lane }
{
    Point {
        x,
        y: lane_y(lane) + 15,
    }
}

fn lane_label(alloc: Global, lane: u32) -> Result<Text, NoMemory>
    ensures { IfOk result (λ label. label ≡ lane_label lane) }
{
    let mut page = Page::new(alloc);
    if lane <= 2000 {
        page.labelled("job ", lane as u64)?;
    } else {
        page.text("further jobs")?;
    }
    Ok(page.into_text())
}

#[tactic(auto, unfolding(crate::specs::Drawn::lane_element))]
fn push_lane(alloc: Global, out: &mut Page, lane: u32) -> Result<(), NoMemory>
    ensures { OnOk result (out.new ≡ out.old ++ element_text (lane_element lane)) }
{
    let label = lane_label(alloc, lane)?;
    push_label(out, lane_point(8, lane), label.as_slice())
}

/// The labels of the lanes from 1 on.
pub fn push_lanes(alloc: Global, out: &mut Page, lanes: u32) -> Result<(), NoMemory>
    ensures { OnOk result (out.new ≡ out.old ++ elements_text (lane_labels 1 lanes)) }
{
    for before in 0..lanes {
        push_lane(alloc, out, before + 1)?;
    }
    Ok(())
}

/// The names behind them.
pub fn push_names(out: &mut Page, names: &[LaneName]) -> Result<(), NoMemory>
    ensures { OnOk result (out.new ≡ out.old ++ elements_text (name_labels names.now)) }
{
    for named in names {
        push_label(out, lane_point(72, named.lane), named.name.as_slice())?;
    }
    Ok(())
}

fn left_out_text(alloc: Global, count: u64) -> Result<Text, NoMemory>
    ensures { IfOk result (λ text. text ≡ decimal count ++ codes " further entries are not drawn") }
{
    let mut page = Page::new(alloc);
    page.number(count)?;
    page.text(" further entries are not drawn")?;
    Ok(page.into_text())
}

fn break_text(alloc: Global, line: u32) -> Result<Text, NoMemory>
    ensures { IfOk result (λ text. text ≡ codes "the journal breaks at line " ++ decimal line) }
{
    let mut page = Page::new(alloc);
    page.labelled("the journal breaks at line ", line as u64)?;
    Ok(page.into_text())
}

/// That entries are left out, and how many.
pub fn push_left_out(alloc: Global, out: &mut Page, count: u64) -> Result<(), NoMemory>
    ensures { OnOk result (out.new ≡ out.old ++ elements_text (left_out_note count)) }
{
    if count == 0 {
        return Ok(());
    }
    let text = left_out_text(alloc, count)?;
    push_label(out, Point { x: 8, y: 14 }, text.as_slice())?;
    Ok(())
}

#[tactic(auto, unfolding(crate::specs::Drawn::break_note))]
fn push_break_at(alloc: Global, out: &mut Page, line: u32) -> Result<(), NoMemory>
    ensures { OnOk result (out.new ≡ out.old ++ elements_text (break_note (Some line))) }
{
    let text = break_text(alloc, line)?;
    push_label(out, Point { x: 8, y: 28 }, text.as_slice())?;
    Ok(())
}

/// That the text broke, and where.
#[tactic(auto, unfolding(crate::specs::Drawn::break_note))]
pub fn push_break(alloc: Global, out: &mut Page, at: Option<u32>) -> Result<(), NoMemory>
    ensures { OnOk result (out.new ≡ out.old ++ elements_text (break_note at)) }
{
    match at {
        Some(line) => push_break_at(alloc, out, line),
        None => Ok(()),
    }
}
