//! The items of a stage, by number.
ghost use Rattle.std.specs.Prelude.{◌≡◌, ◌<◌, ◌≤◌, length, map, slice_index_or, IfOk, None};
ghost use Rattle.ftl_schedule.specs.stages.Stages.{pass_of};
ghost use Rattle.ftl_cursors.specs.items.HostRows.{AreCutAs, AreNumbers, cut_in};
ghost use Rattle.ftl_cursors.specs.items.RowsFit.{AreStarts};
ghost use Rattle.ftl_cursors.specs.items.StageItems.{IsFound, IsItemPlace, IsStageOf, cuts_in};
ghost use Rattle.ftl_cursors.specs.items.StageItems.{hosts_in, items_in};

use crate::items::by_host::TreeRows;
use crate::items::columns::ItemRows;
use crate::items::view::{FoundItem, ItemPlace, StageItems};
use ftl_schedule::Pass;
use std::alloc::{AllocError, Global};

/// How many items come before each pass of a stage, and how many there are in all, where each pass
/// has rows of its number.
pub fn pass_starts(
    alloc: Global,
    rows: &TreeRows<'_>,
    passes: &[Pass],
    cuts: &[usize],
) -> Result<Vec<u32>, AllocError>
    requires few { length passes.now ≤ 2048 }
    requires numbers { AreNumbers rows.now (length passes.now) cuts.now }
    ensures starts { IfOk result (λ v. AreStarts (length (map pass_of passes.now))
        (cut_in rows.now (map pass_of passes.now) cuts.now) rows.now.tree.now.tree v.items) }
{
    let mut starts = Vec::with_capacity(alloc, passes.len() + 1)?;
    let mut start = 0;
    for number in 0..passes.len() {
        starts.push(start)?;
        let of_pass = rows.numbered(cuts[number]);
        start += of_pass.count(passes[number].kind);
    }
    starts.push(start)?;
    Ok(starts)
}

impl<'a> StageItems<'a> {
    /// The items of these passes, with rows of these numbers.
    pub fn new(
        rows: &'a TreeRows<'a>,
        passes: &'a [Pass],
        cuts: &'a [usize],
        starts: &'a [u32],
    ) -> StageItems<'a>
        requires numbers { AreNumbers rows.now (length passes.now) cuts.now }
        requires starts { AreStarts (length (map pass_of passes.now))
            (cut_in rows.now (map pass_of passes.now) cuts.now) rows.now.tree.now.tree starts.now }
        ensures made { IsStageOf rows.now passes.now cuts.now result }
    {
        StageItems {
            rows,
            passes,
            cuts,
            starts,
        }
    }

    /// The rows that tell the items of a pass.
    pub fn rows_of(&self, pass: u32) -> &'a ItemRows<'a>
        requires known { pass < length self.now.passes.now }
        ensures rows { AreCutAs self.now.rows.now (cuts_in self.now pass) result.now }
    {
        self.rows.numbered(self.cuts[pass as usize])
    }

    /// The host class of a pass, where it has one.
    pub fn host(&self, pass: u32) -> Option<u32>
        requires known { pass < length self.now.passes.now }
        ensures host { result ≡ slice_index_or (hosts_in self.now) pass None }
    {
        self.rows.numbered(self.cuts[pass as usize]).host
    }

    /// How many items there are.
    pub fn item_count(&self) -> u32
        ensures count { result ≡ length (items_in self.now) }
        ensures bound { result ≤ 2147483648 }
    {
        let _nodes = self.rows.tree.node_count();
        self.starts[self.passes.len()]
    }

    /// The pass of an item, and its number there, by halving.
    pub fn place(&self, item: u32) -> ItemPlace
        requires item { item < length (items_in self.now) }
        ensures place { IsItemPlace self.now item result }
    {
        let _nodes = self.rows.tree.node_count();
        let mut low = 0;
        let mut high = self.passes.len();
        while high - low > 1 {
            let middle = low + (high - low) / 2;
            if self.starts[middle] <= item {
                low = middle;
            } else {
                high = middle;
            }
        }
        ItemPlace {
            pass: low as u32,
            item: item - self.starts[low],
        }
    }

    /// The item of a number.
    pub fn find(&self, item: u32) -> FoundItem
        requires item { item < length (items_in self.now) }
        ensures found { IsFound self.now item result }
    {
        let _nodes = self.rows.tree.node_count();
        let place = self.place(item);
        let kind = self.passes[place.pass as usize].kind;
        FoundItem {
            pass: place.pass,
            kind,
            start: self.starts[place.pass as usize],
            node: self.rows_of(place.pass).first(kind, place.item),
        }
    }
}
