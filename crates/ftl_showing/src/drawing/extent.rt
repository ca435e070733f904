//! How much room boxes take.

use crate::drawing::placed::Placed;
use crate::drawing::rect::Rect;

/// The largest side of a drawing, in points, that small pages are enlarged to.
const SIDE: i64 = 800;

/// The widest margin, in points.
const MARGIN: i64 = 16;

/// The edges of what is drawn.
#[derive(Clone, Copy)]
pub struct Extent {
    pub left: i64,
    pub top: i64,
    pub right: i64,
    pub bottom: i64,
}

impl Extent {
    /// The room that all these boxes take, and at least a point.
    pub fn of(placed: &[Placed]) -> Extent {
        let mut extent: Option<Extent> = None;
        for it in placed {
            if let Some(rect) = it.rect {
                extent = Some(grown(extent, rect));
            }
        }
        extent.unwrap_or(Extent {
            left: 0,
            top: 0,
            right: 1,
            bottom: 1,
        })
    }

    pub fn width(&self) -> i64 {
        self.right.saturating_sub(self.left).max(1)
    }

    pub fn height(&self) -> i64 {
        self.bottom.saturating_sub(self.top).max(1)
    }

    /// The larger side.
    pub fn side(&self) -> i64 {
        self.width().max(self.height())
    }

    /// How many points of the drawing one of the page takes.
    pub fn scale(&self) -> i64 {
        (SIDE / self.side().clamp(1, SIDE)).max(1)
    }

    /// The margin around what is drawn, at least a point.
    pub fn margin(&self) -> i64 {
        (self.side() / 50).clamp(1, MARGIN)
    }
}

/// The extent with one more box.
fn grown(extent: Option<Extent>, rect: Rect) -> Extent {
    let own = Extent {
        left: rect.left.min(rect.right()),
        top: rect.top.min(rect.bottom()),
        right: rect.left.max(rect.right()),
        bottom: rect.top.max(rect.bottom()),
    };
    match extent {
        Some(all) => Extent {
            left: all.left.min(own.left),
            top: all.top.min(own.top),
            right: all.right.max(own.right),
            bottom: all.bottom.max(own.bottom),
        },
        None => own,
    }
}
