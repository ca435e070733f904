//! A read of a rule.
use ftl_deps::PartRead;
use ftl_meaning::RuleInfo;

/// When a part of a rule is read.
#[derive(Clone, Copy)]
pub(crate) enum When {
    Always,
    /// For the first kid.
    First,
    /// For the later ones.
    Later,
    /// For each kid of this child, by the step of a fold.
    EachKid(u32),
}

/// A read of a part of a rule.
#[derive(Clone, Copy)]
pub(crate) struct Reader {
    pub info: RuleInfo,
    pub when: When,
    pub read: PartRead,
}

/// Whose attribute a read is of: of the node at which its rule runs, or of a kid there.
#[derive(Clone, Copy)]
pub(crate) enum Whose {
    Own,
    Kid,
}

/// Some numbers of kids, from the first to before the last.
#[derive(Clone, Copy)]
pub(crate) struct Range {
    pub from: u32,
    pub to: u32,
}
