//! What rules define.

/// What a rule defines, by number.
#[derive(Clone, Copy, Debug, PartialEq, Eq, Hash)]
pub enum Target {
    /// An attribute of the nodes of a class: class, attribute.
    Own(u32, u32),
    /// An attribute of the kids in a child of a class: class, child, attribute.
    Kid(u32, u32, u32),
}
