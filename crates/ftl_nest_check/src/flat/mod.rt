//! A schedule with nests as one without: each pass is the only one of a stage, and the passes that
//! it nests are so too, before a bottomup pass and behind a topdown one. Where no pass nests any it
//! is the same schedule. Goes in: such a schedule by number. Comes out: one that gives each tree
//! the same values.

mod flat;
mod without_nests;

pub use flat::flat_of;
pub(crate) use without_nests::without_nests;
