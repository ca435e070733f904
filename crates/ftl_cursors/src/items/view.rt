//! The items of a stage, as a view.
ghost use Rattle.std.specs.Prelude.{length, map};
ghost use Rattle.ftl_schedule.specs.stages.Stages.{pass_of};
ghost use Rattle.ftl_cursors.specs.items.HostRows.{AreNumbers, cut_in};
ghost use Rattle.ftl_cursors.specs.items.RowsFit.{AreStarts};

use crate::items::by_host::TreeRows;
use ftl_schedule::{Pass, PassKind};

/// The items of a stage: a view of what others keep, the number of the rows of each pass among it.
#[derive(Clone, Copy)]
pub struct StageItems<'a> {
    pub rows: &'a TreeRows<'a>,
    pub passes: &'a [Pass],
    pub cuts: &'a [usize],
    pub starts: &'a [u32],
    pub ghost numbers: { AreNumbers rows.now (length passes.now) cuts.now },
    pub ghost fit: { AreStarts (length (map pass_of passes.now))
        (cut_in rows.now (map pass_of passes.now) cuts.now) rows.now.tree.now.tree starts.now },
}

/// An item by its pass, and by its number among the items of that.
#[derive(Clone, Copy, Debug, PartialEq, Eq)]
pub struct ItemPlace {
    pub pass: u32,
    pub item: u32,
}

/// An item by its pass, the kind of that, how many items come before the pass, and the node at
/// which the item begins.
#[derive(Clone, Copy, Debug, PartialEq, Eq)]
pub struct FoundItem {
    pub pass: u32,
    pub kind: PassKind,
    pub start: u32,
    pub node: u32,
}
