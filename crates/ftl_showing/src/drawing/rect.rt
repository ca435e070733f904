//! Boxes by their numbers.

/// A box: where it begins, and its size, which may be negative.
#[derive(Clone, Copy, PartialEq, Eq)]
pub struct Rect {
    pub left: i64,
    pub top: i64,
    pub width: i64,
    pub height: i64,
}

impl Rect {
    pub fn right(&self) -> i64 {
        self.left.saturating_add(self.width)
    }

    pub fn bottom(&self) -> i64 {
        self.top.saturating_add(self.height)
    }

    /// The box as far from the beginning of another one as it is from that of the page.
    pub fn within(&self, around: Rect) -> Rect {
        Rect {
            left: self.left.saturating_add(around.left),
            top: self.top.saturating_add(around.top),
            ..*self
        }
    }

    /// The box so many times as large, from the beginning of the page on.
    pub fn enlarged(&self, times: i64) -> Rect {
        Rect {
            left: self.left.saturating_mul(times),
            top: self.top.saturating_mul(times),
            width: self.width.saturating_mul(times),
            height: self.height.saturating_mul(times),
        }
    }

    /// Whether the two have a place in common.
    pub fn meets(&self, other: &Rect) -> bool {
        self.left < other.right()
            && other.left < self.right()
            && self.top < other.bottom()
            && other.top < self.bottom()
    }

    /// Whether it has a negative size, or goes over the edge of the box around.
    pub fn sticks_out(&self, around: Option<Rect>) -> bool {
        if self.width < 0 || self.height < 0 {
            return true;
        }
        match around {
            Some(around) => {
                self.left < around.left
                    || self.top < around.top
                    || self.right() > around.right()
                    || self.bottom() > around.bottom()
            }
            None => false,
        }
    }
}
