//! How a page is brought into a drawing.

use crate::drawing::axis::{Axis, is_near, is_short};
use crate::drawing::extent::Extent;
use crate::drawing::placed::Placed;
use crate::drawing::rect::Rect;

/// The two directions of a drawing, and the edges of all that is drawn.
#[derive(Clone, Copy)]
pub struct Plot {
    across: Axis,
    down: Axis,
    pub extent: Extent,
    pub is_true_to_scale: bool,
}

impl Plot {
    /// A drawing of these boxes. It is true to scale, unless they take more room than can be shown.
    pub fn of(placed: &[Placed]) -> Plot {
        let all = Extent::of(placed);
        if is_near(all.left, all.right) && is_near(all.top, all.bottom) {
            return Plot::by(Axis::plain(), Axis::plain(), all, true);
        }
        if is_short(all.left, all.right) && is_short(all.top, all.bottom) {
            let across = Axis::counted_from(all.left);
            return Plot::by(across, Axis::counted_from(all.top), all, true);
        }
        let across = Axis::squeezed(all.left, all.right);
        Plot::by(across, Axis::squeezed(all.top, all.bottom), all, false)
    }

    fn by(across: Axis, down: Axis, all: Extent, is_true_to_scale: bool) -> Plot {
        let extent = Extent {
            left: across.at(all.left),
            top: down.at(all.top),
            right: across.at(all.right),
            bottom: down.at(all.bottom),
        };
        Plot {
            across,
            down,
            extent,
            is_true_to_scale,
        }
    }

    /// All of the drawing, with a margin around the boxes.
    pub fn view(&self) -> Rect {
        let margin = self.extent.margin();
        Rect {
            left: self.extent.left.saturating_sub(margin),
            top: self.extent.top.saturating_sub(margin),
            width: self.extent.width().saturating_add(margin.saturating_mul(2)),
            height: self
                .extent
                .height()
                .saturating_add(margin.saturating_mul(2)),
        }
    }

    /// Where a box of the page is in the drawing.
    pub fn rect(&self, rect: Rect) -> Rect {
        let left = self.across.at(rect.left);
        let top = self.down.at(rect.top);
        Rect {
            left,
            top,
            width: self.across.at(rect.right()).saturating_sub(left),
            height: self.down.at(rect.bottom()).saturating_sub(top),
        }
    }
}
