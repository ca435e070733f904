//! What is known of the entries of a grammar, by number.

use ftl_grammar::AttrKind;

/// An attribute.
#[derive(Clone, Copy, Debug, PartialEq, Eq)]
pub struct AttrInfo {
    pub kind: AttrKind,
    /// Whether a class declares it as its own, or else an interface.
    pub of_class: bool,
    /// The number of that class or interface.
    pub owner: u32,
    pub shown: bool,
}

/// A child of a class.
#[derive(Clone, Copy, Debug, PartialEq, Eq)]
pub struct ChildInfo {
    pub interface: u32,
    /// Whether it is a list.
    pub many: bool,
}

/// A rule.
#[derive(Clone, Copy, Debug, PartialEq, Eq)]
pub struct RuleInfo {
    pub class: u32,
    /// The child whose kids the rule is for; none where it is for the node itself.
    pub child: Option<u32>,
    pub attr: u32,
}

/// What a field of a document's node may name.
#[derive(Clone, Copy, Debug, PartialEq, Eq)]
pub enum Field {
    Input(u32),
    Child(u32),
}
