//! What comes next in a list that another thing may end.

/// No more, one more, or another thing, which is the last.
#[derive(Drop)]
pub enum ChainItem<A, B> {
    Stop,
    Next(A),
    Last(B),
}
