//! Places of a page as places of its drawing, one direction at a time.

/// How far to each side of its beginning a page is drawn true to scale: programs that show drawings
/// hold places as numbers of 24 bits.
const FARTHEST: i64 = 10_000_000;

/// How many points a direction takes that is not drawn true to scale.
const SQUEEZED: i64 = 800;

/// One direction of a drawing.
#[derive(Clone, Copy)]
pub struct Axis {
    from: i64,
    times: i64,
    over: i64,
}

impl Axis {
    /// The direction as it is on the page.
    pub fn plain() -> Axis {
        Axis::counted_from(0)
    }

    /// The direction with places that count from this one.
    pub fn counted_from(from: i64) -> Axis {
        Axis {
            from,
            times: 1,
            over: 1,
        }
    }

    /// The direction from one place to another, in so many points that it can be looked at.
    pub fn squeezed(from: i64, to: i64) -> Axis {
        let length = length(from, to);
        Axis {
            from,
            times: (SQUEEZED / length.max(1)).max(1),
            over: (length / SQUEEZED).max(1),
        }
    }

    /// The place in the drawing.
    pub fn at(&self, place: i64) -> i64 {
        let offset = place.saturating_sub(self.from);
        offset.saturating_mul(self.times) / self.over.max(1)
    }
}

/// Whether places up to these can be drawn as they are.
pub fn is_near(from: i64, to: i64) -> bool {
    from >= -FARTHEST && to <= FARTHEST
}

/// Whether what stands between these places can be drawn true to scale.
pub fn is_short(from: i64, to: i64) -> bool {
    length(from, to) <= FARTHEST
}

fn length(from: i64, to: i64) -> i64 {
    to.saturating_sub(from).max(1)
}
