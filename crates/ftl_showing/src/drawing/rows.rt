//! Boxes as numbers.

ghost use Rattle.maugzeris.specs.pages.PageState.{IsLaidOut};

use crate::drawing::cross::Crosses;
use crate::drawing::placed::{Placed, boxes_of};
use crate::drawing::plot::Plot;
use crate::drawing::rect::Rect;
use crate::words::Drawing;
use maugzeris::Page;
use std::alloc::{AllocError, Global};
use std::fmt::Write;

/// The boxes of a page as rows of numbers. The first has the edges of the drawing and how many
/// times it is enlarged; each other one a node, its class, the kind of its box, and where that is
/// in the drawing. The kind is 1 for a leaf, and 2 more where it sticks out of the box around; or
/// it is 4 for a square that stands for a box which Overflow hides.
pub fn box_rows(alloc: Global, page: &Page<'_>, how: Drawing<'_>) -> Result<String, AllocError>
    requires laid_out { IsLaidOut page.now }
{
    let placed = boxes_of(alloc, page, how)?;
    let plot = Plot::of(placed.as_slice());
    let mut out = String::new(alloc);
    push_rect(&mut out, &plot.view())?;
    writeln!(out, " {}", plot.extent.scale())?;
    let mut crosses = Crosses::none();
    for it in placed.iter() {
        crosses = crosses.after(it);
        write!(out, "{} {} {} ", it.node, it.class, kind(it))?;
        let rect = match it.rect {
            Some(rect) => plot.rect(rect),
            None => crosses.rect(&plot, it),
        };
        push_rect(&mut out, &rect)?;
        out.push_str("\n")?;
    }
    Ok(out)
}

fn kind(it: &Placed) -> u32 {
    match (it.rect, it.is_leaf, it.sticks_out()) {
        (None, _, _) => 4,
        (_, true, true) => 3,
        (_, false, true) => 2,
        (_, true, false) => 1,
        _ => 0,
    }
}

fn push_rect(out: &mut String, rect: &Rect) -> Result<(), AllocError> {
    let Rect {
        left,
        top,
        width,
        height,
    } = *rect;
    write!(out, "{left} {top} {width} {height}")?;
    Ok(())
}
