use ftl_cells::HandPlace;

/// Where a hand is, or that it was given up.
#[derive(Clone, Copy, Debug, PartialEq, Eq)]
pub enum ReplayPlace {
    Live(HandPlace),
    Spent,
}
