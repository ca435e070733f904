//! Numbers and classes of nodes as SVG.

use crate::drawing::label::{Label, label_of};
use crate::drawing::placed::Placed;
use crate::drawing::plot::Plot;
use crate::drawing::rect::Rect;
use crate::words::Labels;
use maugzeris::Page;
use std::alloc::{AllocError, Global};
use std::fmt::Write;

/// Appends what is written into boxes, above all of them.
pub fn push_labels(
    alloc: Global,
    out: &mut String,
    page: &Page<'_>,
    plot: &Plot,
    placed: &[Placed],
    labels: Labels,
) -> Result<(), AllocError> {
    let mut spaces: Vec<Option<Rect>> = Vec::with_capacity(alloc, placed.len())?;
    for it in placed {
        let label = match it.rect {
            Some(rect) if it.node < page.node_count() => {
                let name = page.class_name(it.node);
                let rect = plot.rect(rect).enlarged(plot.extent.scale());
                label_of(placed, spaces.as_slice(), it, name, &rect, labels)
            }
            _ => None,
        };
        spaces.push(space_of(label))?;
        if let Some(label) = label {
            push_label(out, page, plot, it, &label)?;
        }
    }
    Ok(())
}

fn space_of(label: Option<Label>) -> Option<Rect> {
    match label {
        Some(label) => Some(label.space),
        None => None,
    }
}

/// Appends the number of a node and, where there is room for it, its class.
fn push_label(
    out: &mut String,
    page: &Page<'_>,
    plot: &Plot,
    it: &Placed,
    label: &Label,
) -> Result<(), AllocError> {
    let Some(rect) = it.rect else {
        return Ok(());
    };
    push_opening(out, plot, &plot.rect(rect), label)?;
    push_name(out, page, it.node, label.has_name)?;
    out.push_str("</text>\n")
}

/// Appends where the text of a label begins, beside the corner of its box.
fn push_opening(
    out: &mut String,
    plot: &Plot,
    rect: &Rect,
    label: &Label,
) -> Result<(), AllocError> {
    let Rect { left, top, .. } = *rect;
    let shown = rect.enlarged(plot.extent.scale());
    write!(out, "<text x=\"{left}\" y=\"{top}\" dx=\"")?;
    push_ems(out, label.space.left.saturating_sub(shown.left), 3)?;
    out.push_str("\" dy=\"")?;
    push_ems(out, label.space.top.saturating_sub(shown.top), 11)?;
    out.push_str("\">")
}

/// Appends the number of a node, and its class where that is asked for.
fn push_name(
    out: &mut String,
    page: &Page<'_>,
    node: u32,
    has_name: bool,
) -> Result<(), AllocError> {
    write!(out, "{node}")?;
    if has_name && node < page.node_count() {
        write!(out, " {}", page.class_name(node))?;
    }
    Ok(())
}

/// Appends so many points, of which a letter has eleven, and so many tenths of a letter.
fn push_ems(out: &mut String, points: i64, more: i64) -> Result<(), AllocError> {
    let tenths = (points.max(0).saturating_mul(10).saturating_add(5) / 11).saturating_add(more);
    write!(out, "{}.{}em", tenths / 10, tenths % 10)?;
    Ok(())
}
