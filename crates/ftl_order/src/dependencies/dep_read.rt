//! What a rule reads, by number.

/// Where what is read is written.
#[derive(Clone, Copy, Debug, PartialEq, Eq)]
pub enum Site {
    /// In the document.
    Input,
    /// At the node that has the rule.
    SameVisit,
    /// At the node above.
    Above,
    /// At a kid.
    Below,
}

/// How it is read.
#[derive(Clone, Copy, Debug, PartialEq, Eq)]
pub enum Form {
    /// From the node itself, or from a single child.
    Plain,
    /// From the kid that the rule is for.
    This,
    /// From the kid before that one.
    Prev,
    /// From the last kid.
    Last,
    /// From each kid in turn, in the step of a fold.
    Each,
}

/// A read of a rule.
#[derive(Clone, Copy, Debug, PartialEq, Eq)]
pub struct DepRead {
    /// The attribute that is read.
    pub attr: u32,
    /// Where it is written.
    pub site: Site,
    /// How it is read.
    pub form: Form,
    /// The child that is read; none where the node itself is.
    pub child: Option<u32>,
}
