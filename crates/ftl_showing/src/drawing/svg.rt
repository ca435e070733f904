//! Boxes as SVG.

ghost use Rattle.std.specs.Prelude.{◌<◌};
ghost use Rattle.ftl_model.specs.layout.Tree.{size};
ghost use Rattle.maugzeris.specs.pages.PageState.{IsLaidOut};

use crate::drawing::cross::Crosses;
use crate::drawing::labels::push_labels;
use crate::drawing::placed::{Placed, boxes_of};
use crate::drawing::plot::Plot;
use crate::drawing::rect::Rect;
use crate::lines::{Fields, push_node};
use crate::words::Drawing;
use maugzeris::Page;
use std::alloc::{AllocError, Global};
use std::fmt::Write;

/// The styles of all drawings. Lines keep their width however much a drawing is enlarged.
const STYLE: &str = "path{vector-effect:non-scaling-stroke;fill-opacity:.08}
path.leaf{fill-opacity:.3}
path.out{stroke:#d00;stroke-width:2;stroke-dasharray:5 3}
path.unknown{fill:none;stroke:#d00;stroke-width:3}
";

/// The boxes of a page as an SVG: coloured by class, those of leaves filled, each with what its
/// node shows as a title. A box that sticks out of the box around has a broken red edge, and a red
/// cross stands for one that Overflow hides.
pub fn drawn_page(alloc: Global, page: &Page<'_>, how: Drawing<'_>) -> Result<String, AllocError>
    requires laid_out { IsLaidOut page.now }
{
    let boxes = boxes_of(alloc, page, how)?;
    let placed = boxes.as_slice();
    let plot = Plot::of(placed);
    let mut out = String::new(alloc);
    push_opening(&mut out, &plot)?;
    push_styles(&mut out, &plot, classes(placed))?;
    push_boxes(&mut out, page, &plot, placed)?;
    push_labels(alloc, &mut out, page, &plot, placed, how.labels)?;
    out.push_str("</svg>\n")?;
    Ok(out)
}

/// One more than the greatest number of a class.
fn classes(placed: &[Placed]) -> u32 {
    let mut count = 0u32;
    for it in placed {
        count = count.max(it.class.saturating_add(1));
    }
    count
}

fn push_opening(out: &mut String, plot: &Plot) -> Result<(), AllocError> {
    let Rect {
        left,
        top,
        width,
        height,
    } = plot.view();
    let shown_width = width.saturating_mul(plot.extent.scale());
    let shown_height = height.saturating_mul(plot.extent.scale());
    write!(
        out,
        "<svg xmlns=\"http://www.w3.org/2000/svg\" width=\"{shown_width}\" "
    )?;
    write!(out, "height=\"{shown_height}\" ")?;
    writeln!(out, "viewBox=\"{left} {top} {width} {height}\">")?;
    if !plot.is_true_to_scale {
        out.push_str("<desc>Not true to scale</desc>\n")?;
    }
    write!(out, "<rect x=\"{left}\" y=\"{top}\" width=\"{width}\" ")?;
    writeln!(out, "height=\"{height}\" fill=\"#fff\"/>")?;
    Ok(())
}

/// Appends the styles, with a colour for each class.
fn push_styles(out: &mut String, plot: &Plot, classes: u32) -> Result<(), AllocError> {
    let hundredths = 1100 / plot.extent.scale().max(1);
    let units = hundredths / 100;
    let parts = hundredths % 100;
    out.push_str("<style>\n")?;
    out.push_str(STYLE)?;
    write!(out, "text{{font:{units}.{parts:02}px sans-serif;")?;
    out.push_str("fill:#222;pointer-events:none}\n")?;
    for class in 0..classes {
        let hue = hue(class);
        writeln!(
            out,
            ".c{class}{{color:hsl({hue},70%,40%);fill:currentColor;stroke:currentColor}}"
        )?;
    }
    out.push_str("</style>\n")
}

/// The hue of a class, far from those of the classes beside it; that of the first ones is no red.
pub fn hue(class: u32) -> u64 {
    (u64::from(class) * 137 + 130) % 360
}

fn push_boxes(
    out: &mut String,
    page: &Page<'_>,
    plot: &Plot,
    placed: &[Placed],
) -> Result<(), AllocError>
    requires laid_out { IsLaidOut page.now }
{
    let mut crosses = Crosses::none();
    for it in placed {
        crosses = crosses.after(it);
        if it.node < page.node_count() {
            push_box(out, page, plot, it, crosses)?;
        }
    }
    Ok(())
}

fn push_box(
    out: &mut String,
    page: &Page<'_>,
    plot: &Plot,
    it: &Placed,
    crosses: Crosses,
) -> Result<(), AllocError>
    requires laid_out { IsLaidOut page.now }
    requires node { it.now.node < size page.now.tree }
{
    write!(out, "<path id=\"n{}\" class=\"", it.node)?;
    match it.rect {
        Some(rect) => push_rect(out, it, &plot.rect(rect))?,
        None => push_cross(out, &crosses.rect(plot, it))?,
    }
    out.push_str("\"><title>")?;
    push_node(out, page, it.node, Fields::Shown)?;
    out.push_str("</title></path>\n")
}

/// Appends the classes of a box and its path.
fn push_rect(out: &mut String, it: &Placed, rect: &Rect) -> Result<(), AllocError> {
    write!(out, "c{}", it.class)?;
    if it.is_leaf {
        out.push_str(" leaf")?;
    }
    if it.sticks_out() {
        out.push_str(" out")?;
    }
    let Rect {
        left,
        top,
        width,
        height,
    } = *rect;
    write!(out, "\" d=\"M{left} {top}h{width}v{height}H{left}z")?;
    Ok(())
}

/// Appends a cross over this square.
fn push_cross(out: &mut String, rect: &Rect) -> Result<(), AllocError> {
    let Rect {
        left,
        top,
        width: size,
        ..
    } = *rect;
    write!(
        out,
        "unknown\" d=\"M{left} {top}l{size} {size}m0 -{size}l-{size} {size}"
    )?;
    Ok(())
}
