//! The attributes of a class.

/// The attributes of a class, as two runs of numbers: those of its interface, and its own.
#[derive(Clone, Copy, Debug, PartialEq, Eq)]
pub struct ClassRow {
    pub shared_first: u32,
    pub shared_count: u32,
    pub own_first: u32,
    pub own_count: u32,
}
