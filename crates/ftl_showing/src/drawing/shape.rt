//! The box of a node.

ghost use Rattle.std.specs.Prelude.{◌<◌};
ghost use Rattle.ftl_model.specs.layout.Tree.{size};
ghost use Rattle.maugzeris.specs.pages.PageState.{IsLaidOut};

use crate::drawing::rect::Rect;
use crate::words::BoxNames;
use maugzeris::{Page, Val};

/// What a node has of a box.
#[derive(Clone, Copy, PartialEq, Eq)]
pub enum Shape {
    /// It lacks an attribute that places a box.
    Absent,
    /// One of these is Overflow.
    Unknown,
    Known(Rect),
}

/// What a node has of a box, by the attributes of these names. A root that has a size and no place
/// begins at 0.
pub fn shape_at(page: &Page<'_>, node: u32, names: BoxNames<'_>) -> Shape
    requires laid_out { IsLaidOut page.now }
    requires node { node < size page.now.tree }
{
    let left = place(page, node, names.left);
    let top = place(page, node, names.top);
    let width = value(page, node, names.width);
    let height = value(page, node, names.height);
    match (left, top, width, height) {
        (Some(left), Some(top), Some(width), Some(height)) => shape_of(left, top, width, height),
        _ => Shape::Absent,
    }
}

fn shape_of(left: Val, top: Val, width: Val, height: Val) -> Shape {
    match (left.get(), top.get(), width.get(), height.get()) {
        (Some(left), Some(top), Some(width), Some(height)) => Shape::Known(Rect {
            left,
            top,
            width,
            height,
        }),
        _ => Shape::Unknown,
    }
}

/// The value of a place; 0 where the root has none.
fn place(page: &Page<'_>, node: u32, name: &str) -> Option<Val>
    requires laid_out { IsLaidOut page.now }
    requires node { node < size page.now.tree }
{
    match value(page, node, name) {
        None if node == 0 => Some(Val::num(0)),
        found => found,
    }
}

/// The value of the attribute of this name, if the node has it.
fn value(page: &Page<'_>, node: u32, name: &str) -> Option<Val>
    requires laid_out { IsLaidOut page.now }
    requires node { node < size page.now.tree }
{
    match page.find_attribute(node, name) {
        Some(attr) => Some(page.value(node, attr)),
        None => None,
    }
}
