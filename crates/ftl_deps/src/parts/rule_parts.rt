//! The parts of one rule.

use crate::parts::part_read::PartRead;
use sqlite_items::Items;

/// The parts of a rule, each with its reads in the order of the text.
#[derive(Drop)]
pub enum RuleParts {
    /// One expression.
    Plain(Items<PartRead>),
    /// One for the first kid, and one for each later kid.
    FirstThen(Items<PartRead>, Items<PartRead>),
    /// A fold over the kids of a child: its start, and the step that it takes at each kid.
    FoldOver(u32, Items<PartRead>, Items<PartRead>),
}
