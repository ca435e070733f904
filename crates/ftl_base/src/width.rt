ghost use Rattle.std.specs.Prelude.{◌≡◌};
ghost use Rattle.ftl_base.specs.Widths.{greatest_of_width};

/// How far the numbers of a page go: narrow ones from -2147483648 to 2147483647, wide ones from
/// -140737488355328 to 140737488355327.
#[derive(Clone, Copy, Debug, PartialEq, Eq)]
pub enum Width {
    Narrow,
    Wide,
}

impl Width {
    /// The greatest number of the width.
    pub fn greatest_number(self) -> u64
        ensures number { result ≡ greatest_of_width self }
    {
        match self {
            Width::Narrow => 2147483647,
            Width::Wide => 140737488355327,
        }
    }
}
