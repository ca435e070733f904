//! How often a rule runs at a node.

/// The steps of a rule at a node, for the kids from one on up to before the end. A rule for the
/// node itself has a single one, of number 0.
#[derive(Clone, Copy)]
pub struct Turns {
    pub node: u32,
    pub rule: u32,
    pub kid: u32,
    pub kid_end: u32,
}
