//! What rules write, as those that read it look for it.

/// What a rule writes, by the numbers that its readers look for it by.
#[derive(Clone, Copy, Debug, PartialEq, Eq, Hash)]
pub enum Product {
    /// An attribute of the nodes of a class, by the rules of that class: class, attribute.
    Own(u32, u32),
    /// An attribute of the kids in a child of a class: class, child, attribute.
    Kid(u32, u32, u32),
    /// An attribute of the nodes of an interface, by the rules of the class above: interface,
    /// attribute.
    Above(u32, u32),
    /// An attribute of the nodes of an interface, by the rules of their own class: interface,
    /// attribute.
    Below(u32, u32),
}
