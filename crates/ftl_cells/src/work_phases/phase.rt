ghost use Rattle.std.specs.Prelude.{◌≡◌, ◌↔◌, IsTrue};

/// When an item is filled.
#[derive(Clone, Copy)]
pub enum Phase {
    /// Before all ranges.
    First,

    /// With the others of the range of this number, beside those of other ranges.
    Range(u32),

    /// After all ranges.
    Last,
}

impl Phase {
    /// Whether two phases are one.
    pub fn is(self, other: Phase) -> bool
        ensures same { IsTrue result ↔ (self ≡ other) }
    {
        match (self, other) {
            (Phase::First, Phase::First) | (Phase::Last, Phase::Last) => true,
            (Phase::Range(range), Phase::Range(other)) => range == other,
            _ => false,
        }
    }
}

/// The phase of each item of a work, and the ranges.
#[derive(Drop)]
pub struct Phases {
    /// One for each item.
    pub phases: Vec<Phase>,

    /// How many ranges there are.
    pub ranges: u32,

    /// How many cells a range has; the last ones may have fewer.
    pub size: u32,
}
