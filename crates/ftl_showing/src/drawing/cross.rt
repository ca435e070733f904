//! Crosses that stand for boxes which Overflow hides.

use crate::drawing::placed::Placed;
use crate::drawing::plot::Plot;
use crate::drawing::rect::Rect;

/// How many crosses stand before the last one, beside it in the same box; -1 where none does.
#[derive(Clone, Copy)]
pub struct Crosses {
    around: Option<Rect>,
    before: i64,
}

impl Crosses {
    /// Before the first box.
    pub fn none() -> Crosses {
        Crosses {
            around: None,
            before: -1,
        }
    }

    /// Once one more box is drawn.
    pub fn after(self, it: &Placed) -> Crosses {
        if it.rect.is_some() {
            return Crosses {
                around: it.rect,
                before: -1,
            };
        }
        let around = it.rect_around();
        if around == self.around {
            let before = self.before.saturating_add(1);
            return Crosses { around, before };
        }
        Crosses { around, before: 0 }
    }

    /// The square of the last cross, at the beginning of the box around, behind the ones before it.
    pub fn rect(&self, plot: &Plot, it: &Placed) -> Rect {
        let size = plot.extent.margin().saturating_mul(2);
        let offset = self.before.saturating_mul(size).saturating_mul(3) / 2;
        let (left, top) = match it.rect_around() {
            Some(around) => {
                let Rect { left, top, .. } = plot.rect(around);
                (left, top)
            }
            None => (plot.extent.left, plot.extent.top),
        };
        Rect {
            left: left.saturating_add(offset),
            top,
            width: size,
            height: size,
        }
    }
}
