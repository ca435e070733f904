//! The boxes of a page.

ghost use Rattle.std.specs.Prelude.{◌<◌};
ghost use Rattle.ftl_model.specs.layout.Tree.{size};
ghost use Rattle.maugzeris.specs.pages.PageState.{IsLaidOut};

use crate::drawing::rect::Rect;
use crate::drawing::shape::{Shape, shape_at};
use crate::words::Drawing;
use maugzeris::Page;
use std::alloc::{AllocError, Global};

/// A node that has a box: the box, none where Overflow hides it, and the box around, which is that
/// of the nearest node above that has one.
#[derive(Clone, Copy)]
pub struct Placed {
    pub node: u32,
    pub class: u32,
    /// Whether no node stands below it.
    pub is_leaf: bool,
    pub rect: Option<Rect>,
    pub around: Option<Frame>,
}

/// A box that others stand in.
#[derive(Clone, Copy)]
pub struct Frame {
    /// Its place among the boxes of the page.
    pub place: usize,
    pub rect: Rect,
}

impl Placed {
    /// Whether it sticks out of the box around, or its size is negative.
    pub fn sticks_out(&self) -> bool {
        match self.rect {
            Some(rect) => rect.sticks_out(self.rect_around()),
            None => false,
        }
    }

    /// The box around.
    pub fn rect_around(&self) -> Option<Rect> {
        rect_of_frame(self.around)
    }
}

/// The nodes that have a box, in preorder, with their places counted from the page.
pub fn boxes_of(alloc: Global, page: &Page<'_>, how: Drawing<'_>) -> Result<Vec<Placed>, AllocError>
    requires laid_out { IsLaidOut page.now }
{
    let mut placed = Vec::new(alloc);
    let mut frames: Vec<Option<Frame>> = Vec::with_capacity(alloc, page.node_count() as usize)?;
    for node in 0..page.node_count() {
        let around = frame_above(page, frames.as_slice(), node);
        let shape = shape_at(page, node, how.names);
        let shape = moved(shape, rect_of_frame(around), how.relative);
        frames.push(frame_below(shape, around, placed.len()))?;
        if shape != Shape::Absent {
            placed.push(Placed {
                node,
                class: page.class(node),
                is_leaf: !has_kids(page, node),
                rect: rect_of(shape),
                around,
            })?;
        }
    }
    Ok(placed)
}

/// The box around a node, by what stands around at each node before it.
fn frame_above(page: &Page<'_>, frames: &[Option<Frame>], node: u32) -> Option<Frame>
    requires node { node < size page.now.tree }
{
    let parent = page.parent(node)?;
    match frames.get(parent as usize) {
        Some(frame) => *frame,
        None => None,
    }
}

/// Whether a node has kids: the node behind it is one.
fn has_kids(page: &Page<'_>, node: u32) -> bool
    requires node { node < size page.now.tree }
{
    let Some(next) = node.checked_add(1) else {
        return false;
    };
    next < page.node_count() && page.parent(next) == Some(node)
}

/// A shape with its place counted from the page.
fn moved(shape: Shape, around: Option<Rect>, relative: bool) -> Shape {
    match (shape, around) {
        (Shape::Known(rect), Some(around)) if relative => Shape::Known(rect.within(around)),
        _ => shape,
    }
}

fn rect_of(shape: Shape) -> Option<Rect> {
    match shape {
        Shape::Known(rect) => Some(rect),
        _ => None,
    }
}

fn rect_of_frame(frame: Option<Frame>) -> Option<Rect> {
    match frame {
        Some(frame) => Some(frame.rect),
        None => None,
    }
}

/// What is around the nodes below a node of this shape.
fn frame_below(shape: Shape, around: Option<Frame>, place: usize) -> Option<Frame> {
    match shape {
        Shape::Known(rect) => Some(Frame { place, rect }),
        _ => around,
    }
}
