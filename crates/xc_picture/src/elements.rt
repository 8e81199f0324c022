ghost use Rattle.std.specs.Prelude.{◌≡◌, ◌++◌, OnOk};
ghost use Rattle.xc_picture.specs.Elements.{Rect, Arrow, Label, look_name, area_text, ends_text, point_text, element_text};
ghost use Rattle.xc_picture.specs.Elements.{root_text, size_text, style_text};

use crate::escapes::push_escaped;
use crate::shapes::{Area, Point, ShapeStyle};
use xc_data::NoMemory;
use xc_print::Page;

// What the looks are, and the head of an arrow.
const STYLE: &str = "<style>text{font:11px monospace;fill:#222}rect{stroke:#222;stroke-width:0.5}\
.committed{fill:#a6d96a}.aborted{fill:#f4a582}.late{fill:#4575b4}.faults{fill:#fdae61}.remains{fill:#000}\
.arrow{stroke:#b2182b;stroke-width:1.5;marker-end:url(#head)}text,line{pointer-events:none}</style>\n\
<defs><marker id=\"head\" viewBox=\"0 0 6 6\" refX=\"6\" refY=\"3\" markerWidth=\"6\" markerHeight=\"6\" orient=\"auto\">\
<path d=\"M0 0L6 3L0 6Z\" fill=\"#b2182b\"/></marker></defs>\n\
<rect width=\"100%\" height=\"100%\" style=\"fill:#fff;stroke:none\"/>\n";

fn push_look(out: &mut Page, look: ShapeStyle) -> Result<(), NoMemory>
    ensures { OnOk result (out.new ≡ out.old ++ look_name look) }
{
    match look {
        ShapeStyle::Committed => out.text("committed"),
        ShapeStyle::Aborted => out.text("aborted"),
        ShapeStyle::Late => out.text("late"),
        ShapeStyle::Faults => out.text("faults"),
        ShapeStyle::Remains => out.text("remains"),
    }
}

fn push_area(out: &mut Page, area: Area) -> Result<(), NoMemory>
    ensures { OnOk result (out.new ≡ out.old ++ area_text area) }
{
    out.labelled(" x=\"", area.x)?;
    out.labelled("\" y=\"", area.y)?;
    out.labelled("\" width=\"", area.width)?;
    out.labelled("\" height=\"", area.height)?;
    out.text("\"")
}

fn push_ends(out: &mut Page, from: Point, to: Point) -> Result<(), NoMemory>
    ensures { OnOk result (out.new ≡ out.old ++ ends_text from to) }
{
    out.labelled(" x1=\"", from.x)?;
    out.labelled("\" y1=\"", from.y)?;
    out.labelled("\" x2=\"", to.x)?;
    out.labelled("\" y2=\"", to.y)?;
    out.text("\"")
}

fn push_point(out: &mut Page, at: Point) -> Result<(), NoMemory>
    ensures { OnOk result (out.new ≡ out.old ++ point_text at) }
{
    out.labelled(" x=\"", at.x)?;
    out.labelled("\" y=\"", at.y)?;
    out.text("\"")
}

/// A rectangle with a tooltip.
pub fn push_rect(out: &mut Page, area: Area, look: ShapeStyle, tip: &[u8]) -> Result<(), NoMemory>
    ensures { OnOk result (out.new ≡ out.old ++ element_text (Rect area look tip.now)) }
{
    out.text("<rect class=\"")?;
    push_look(out, look)?;
    out.text("\"")?;
    push_area(out, area)?;
    out.text("><title>")?;
    push_escaped(out, tip)?;
    out.text("</title></rect>\n")
}

/// A line with a head at its end.
pub fn push_arrow(out: &mut Page, from: Point, to: Point) -> Result<(), NoMemory>
    ensures { OnOk result (out.new ≡ out.old ++ element_text (Arrow from to)) }
{
    out.text("<line class=\"arrow\"")?;
    push_ends(out, from, to)?;
    out.text("/>\n")
}

/// A text that begins at a point.
pub fn push_label(out: &mut Page, at: Point, text: &[u8]) -> Result<(), NoMemory>
    ensures { OnOk result (out.new ≡ out.old ++ element_text (Label at text.now)) }
{
    out.text("<text")?;
    push_point(out, at)?;
    out.text(">")?;
    push_escaped(out, text)?;
    out.text("</text>\n")
}

#[tactic(auto, unfolding(crate::specs::Elements::style_text))]
fn push_style(out: &mut Page) -> Result<(), NoMemory>
    ensures { OnOk result (out.new ≡ out.old ++ style_text) }
{
    out.text(STYLE)
}

#[tactic(auto, unfolding(crate::specs::Elements::root_text))]
fn push_root(out: &mut Page) -> Result<(), NoMemory>
    ensures { OnOk result (out.new ≡ out.old ++ root_text) }
{
    out.text("<svg xmlns=\"http://www.w3.org/2000/svg\"")
}

fn push_size(out: &mut Page, size: Point) -> Result<(), NoMemory>
    ensures { OnOk result (out.new ≡ out.old ++ size_text size) }
{
    push_root(out)?;
    out.labelled(" width=\"", size.x)?;
    out.labelled("\" height=\"", size.y)?;
    out.text("\">\n")
}

/// What stands before the elements of a picture of this size.
pub fn push_front(out: &mut Page, size: Point) -> Result<(), NoMemory>
    ensures { OnOk result (out.new ≡ out.old ++ size_text size ++ style_text) }
{
    push_size(out, size)?;
    push_style(out)
}
