ghost use Rattle.std.specs.Prelude.{◌≡◌, ◌++◌, ◌≤◌, IfOk, OnOk};
ghost use Rattle.std.specs.FinMap as map;
ghost use Rattle.xc_picture.specs.Arrows.{middle};
ghost use Rattle.xc_picture.specs.Drawn.{bar_area, mark_area, mark_if, marks_drawn, bar_look, tx_name, tx_point};
ghost use Rattle.xc_picture.specs.Places.{column_x};
ghost use Rattle.xc_picture.specs.Drawn.{bar_elements};
ghost use Rattle.xc_picture.specs.Arrows.{key_of, spot_of, spots_with, arrow_between, arrow_to, rival_spot, arrows_of};
ghost use Rattle.xc_picture.specs.Drawn.{bars_elements};
ghost use Rattle.xc_picture.specs.Elements.{element_text, elements_text};
ghost use Rattle.xc_picture.specs.Scenes.{lane_of};

use crate::elements::{push_arrow, push_label, push_rect};
use crate::labels::lane_y;
use crate::scene::{Bar, Spot};
use crate::shapes::{Area, Point, ShapeStyle};
use std::alloc::Global;
use xc_data::{NoMemory, Num, Text};
use xc_maps::NumMap;
use xc_print::Page;

/// The right edge of a column.
pub fn column_x(column: u32) -> u64
    ensures { result ≡ column_x column }
{
    240 + 32 * column as u64
}

fn lane_of(job: u32) -> u32
    ensures { result ≡ lane_of job }
{
    job.min(2001)
}

fn bar_area(bar: &Bar) -> Area
    ensures { result ≡ bar_area bar.now }
{
    Area {
        x: column_x(bar.from),
        y: lane_y(lane_of(bar.job)),
        width: column_x(bar.to).saturating_sub(column_x(bar.from)),
        height: 22,
    }
}

fn mark_area(place: u64, bar: &Bar) -> Area
    requires { place ≤ 2 }
    ensures { result ≡ mark_area place bar.now }
{
    Area {
        x: column_x(bar.to) - 10 * (place + 1),
        y: lane_y(lane_of(bar.job)) + 14,
        width: 6,
        height: 6,
    }
}

fn middle(spot: Spot, column: u32) -> Point
    ensures { result ≡ middle spot column }
{
    Point {
        x: column_x(column) - 16,
        y: lane_y(spot.lane) + 11,
    }
}

#[tactic(auto, unfolding(crate::specs::Drawn::mark_if))]
fn push_mark(
    out: &mut Page,
    is_there: bool,
    area: Area,
    look: ShapeStyle,
    tip: &str,
) -> Result<(), NoMemory>
    ensures { OnOk result (out.new ≡ out.old ++ elements_text (mark_if is_there area look tip.now)) }
{
    if is_there {
        push_rect(out, area, look, tip.as_bytes())?;
    }
    Ok(())
}

fn push_marks(out: &mut Page, bar: &Bar) -> Result<(), NoMemory>
    ensures { OnOk result (out.new ≡ out.old ++ elements_text (marks_drawn bar.now)) }
{
    push_mark(
        out,
        bar.late,
        mark_area(0, bar),
        ShapeStyle::Late,
        "late calls",
    )?;
    push_mark(
        out,
        bar.faults,
        mark_area(1, bar),
        ShapeStyle::Faults,
        "faults",
    )?;
    push_mark(
        out,
        bar.remains,
        mark_area(2, bar),
        ShapeStyle::Remains,
        "something remains",
    )?;
    Ok(())
}

fn bar_look(committed: bool) -> ShapeStyle
    ensures { result ≡ bar_look committed }
{
    if committed {
        ShapeStyle::Committed
    } else {
        ShapeStyle::Aborted
    }
}

fn tx_name(alloc: Global, tx: u32) -> Result<Text, NoMemory>
    ensures { IfOk result (λ name. name ≡ tx_name tx) }
{
    let mut page = Page::new(alloc);
    page.labelled("t", tx as u64)?;
    Ok(page.into_text())
}

fn tx_point(bar: &Bar) -> Point
    ensures { result ≡ tx_point bar.now }
{
    Point {
        x: column_x(bar.from) + 3,
        y: lane_y(lane_of(bar.job)) + 11,
    }
}

#[tactic(auto, unfolding(crate::specs::Drawn::bar_elements))]
fn push_bar(alloc: Global, out: &mut Page, bar: &Bar) -> Result<(), NoMemory>
    ensures { OnOk result (out.new ≡ out.old ++ elements_text (bar_elements bar.now)) }
{
    let name = tx_name(alloc, bar.tx)?;
    push_rect(
        out,
        bar_area(bar),
        bar_look(bar.committed),
        bar.tip.as_slice(),
    )?;
    push_label(out, tx_point(bar), name.as_slice())?;
    push_marks(out, bar)
}

/// The bars in their order, each with its tooltip and its marks.
pub fn push_bars(alloc: Global, out: &mut Page, bars: &[Bar]) -> Result<(), NoMemory>
    ensures { OnOk result (out.new ≡ out.old ++ elements_text (bars_elements bars.now)) }
{
    for bar in bars {
        push_bar(alloc, out, bar)?;
    }
    Ok(())
}

fn key_of(tx: u32) -> Num
    ensures { result ≡ key_of tx }
{
    Num { tx, k: 0 }
}

fn spot_of(bar: &Bar) -> Spot
    ensures { result ≡ spot_of bar.now }
{
    Spot {
        lane: lane_of(bar.job),
        to: bar.to,
    }
}

/// Where the entries are, by the numbers of their transactions.
pub fn spots_of(alloc: Global, bars: &[Bar]) -> Result<NumMap<Spot>, NoMemory>
    ensures { IfOk result (λ spots. spots ≡ spots_with map.empty bars.now) }
{
    let mut spots = NumMap::new(alloc);
    for bar in bars {
        spots.insert(key_of(bar.tx), spot_of(bar))?;
    }
    Ok(spots)
}

fn rival_spot(spots: &NumMap<Spot>, rival: Option<u32>) -> Option<Spot>
    ensures { result ≡ rival_spot spots.now rival }
{
    match rival {
        Some(tx) => spots.get(key_of(tx)).copied(),
        None => None,
    }
}

fn push_arrow_between(out: &mut Page, from: Spot, to: Spot) -> Result<(), NoMemory>
    ensures { OnOk result (out.new ≡ out.old ++ element_text (arrow_between from to)) }
{
    push_arrow(out, middle(from, from.to), middle(to, from.to.min(to.to)))
}

#[tactic(auto, unfolding(crate::specs::Arrows::arrow_to))]
fn push_arrow_to(out: &mut Page, from: Spot, to: Option<Spot>) -> Result<(), NoMemory>
    ensures { OnOk result (out.new ≡ out.old ++ elements_text (arrow_to from to)) }
{
    match to {
        Some(to) => push_arrow_between(out, from, to),
        None => Ok(()),
    }
}

/// The arrows from the bars whose transaction met another one, to that one's.
pub fn push_arrows(out: &mut Page, spots: &NumMap<Spot>, bars: &[Bar]) -> Result<(), NoMemory>
    ensures { OnOk result (out.new ≡ out.old ++ elements_text (arrows_of spots.now bars.now)) }
{
    for bar in bars {
        push_arrow_to(out, spot_of(bar), rival_spot(spots, bar.rival))?;
    }
    Ok(())
}
