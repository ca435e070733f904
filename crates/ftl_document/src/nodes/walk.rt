//! A walk over the rows of a document.

ghost use Rattle.std.specs.Prelude.{◌≡◌, suc, ◌+◌, ◌∷◌, ◌<◌, ◌≤◌, drop, length, OnOk};
ghost use Rattle.ftl_meaning.specs.faults.Numbering.{class_at};
ghost use Rattle.ftl_document.specs.syntax.Rows.{document_rows};
ghost use Rattle.ftl_document.specs.syntax.Written.{WrittenNode};
ghost use Rattle.ftl_document.specs.faults.Nodes.{child_number};
ghost use Rattle.ftl_document.specs.nodes.Found.{AreRowsOf, IsWritten};
ghost use Rattle.ftl_document.specs.nodes.Walk.{CanWalk, Ends, GoesOn, IsReady, IsRow, IsWalked};
ghost use Rattle.ftl_document.specs.nodes.Walk.{IsWithin, Walks, wanted_of};

use crate::faults::DocFault;
use crate::nodes::class_tables::ClassTable;
use crate::nodes::entering::Scratch;
use crate::nodes::progress::{NextNode, Progress};
use crate::nodes::stack::Region;
use crate::syntax::{NameRef, WrittenRow};
use ftl_checked::Checked;
use ftl_tree::Place;
use std::alloc::Global;

/// What a walk goes over.
#[derive(Clone, Copy)]
pub(crate) struct Walk<'a> {
    pub(crate) checked: &'a Checked,
    pub(crate) tables: &'a [ClassTable],
    pub(crate) rows: &'a [WrittenRow<'a>],
}

impl<'a> Walk<'a> {
    /// Looks at all nodes, and goes as far as behind the last one.
    pub(crate) fn all(&self, alloc: Global, class: &NameRef<'a>) -> Result<Progress, DocFault>
        requires ready { IsReady self.now }
        requires written { IsWritten (document_rows class.now self.now.rows.now) }
        ensures exact { (node : WrittenNode)
            → AreRowsOf node (document_rows class.now self.now.rows.now)
            → Walks self.now.checked.now.grammar node result }
    {
        let mut progress = Progress::new(alloc);
        let mut scratch = Scratch::new(alloc, self.checked.interface_count())?;
        let root = NextNode {
            class,
            wanted: self.checked.root(),
            from: 0,
            end: self.rows.len(),
            parent: 0,
            place: Place { child: 0, kid: 0 },
        };
        self.enter(alloc, root, &mut scratch, &mut progress)?;
        self.finish(alloc, &mut scratch, &mut progress)?;
        Ok(progress)
    }

    /// Looks at each node that is left.
    fn finish(
        &self,
        alloc: Global,
        scratch: &mut Scratch<'a>,
        progress: &mut Progress,
    ) -> Result<(), DocFault>
        requires ready { IsReady self.now }
        requires walked { CanWalk self.now progress.old }
        ensures exact { (node : WrittenNode)
            → IsWalked self.now.checked.now.grammar node self.now.rows.now progress.old
            → Ends self.now.checked.now.grammar node result progress.new }
    {
        while let Some(region) = progress.stack.innermost() {
            if progress.at < region.end {
                self.step(alloc, region, scratch, progress)?;
            } else {
                progress.stack.pop();
            }
        }
        Ok(())
    }

    /// Goes on by one row.
    fn step(
        &self,
        alloc: Global,
        region: Region,
        scratch: &mut Scratch<'a>,
        progress: &mut Progress,
    ) -> Result<(), DocFault>
        requires ready { IsReady self.now }
        requires walked { CanWalk self.now progress.old }
        requires within { IsWithin progress.old region }
        ensures exact { (node : WrittenNode)
            → IsWalked self.now.checked.now.grammar node self.now.rows.now progress.old
            → GoesOn self.now.checked.now.grammar node self.now.rows.now result progress.new }
        ensures at { OnOk result (progress.new.at ≡ suc progress.old.at) }
        ensures few { OnOk result (length progress.new.stack ≤ suc (length progress.old.stack)) }
    {
        let row = row_at(self.rows, progress.at);
        self.pass(alloc, row, region, scratch, progress)
    }

    /// Goes on by this row.
    fn pass(
        &self,
        alloc: Global,
        row: &WrittenRow<'a>,
        region: Region,
        scratch: &mut Scratch<'a>,
        progress: &mut Progress,
    ) -> Result<(), DocFault>
        requires ready { IsReady self.now }
        requires walked { CanWalk self.now progress.old }
        requires within { IsWithin progress.old region }
        requires row { IsRow self.now progress.old row.now }
        ensures exact { (node : WrittenNode)
            → IsWalked self.now.checked.now.grammar node self.now.rows.now progress.old
            → GoesOn self.now.checked.now.grammar node self.now.rows.now result progress.new }
        ensures at { OnOk result (progress.new.at ≡ suc progress.old.at) }
        ensures few { OnOk result (length progress.new.stack ≤ suc (length progress.old.stack)) }
    {
        match row {
            WrittenRow::Number { .. } => {
                progress.at += 1;
                Ok(())
            }
            WrittenRow::Single { name, class, below } => {
                let child = self.child_number(region.class, name);
                let place = Place { child, kid: 0 };
                let next = self.next_node(region, place, class, *below, progress.at);
                self.enter(alloc, next, scratch, progress)
            }
            WrittenRow::List { name, below } => {
                let child = self.child_number(region.class, name);
                progress.open_list(region, child, *below)?;
                Ok(())
            }
            WrittenRow::Kid { class, below } => {
                let place = place_of_kid(region);
                let next = self.next_node(region, place, class, *below, progress.at);
                progress.stack.replace(region.with_next_kid())?;
                self.enter(alloc, next, scratch, progress)
            }
        }
    }

    /// The node of the row at `at`, which stands at this place of the region's node.
    fn next_node<'r>(
        &self,
        region: Region,
        place: Place,
        name: &'r NameRef<'a>,
        below: u32,
        at: usize,
    ) -> NextNode<'r, 'a>
        requires class { region.class < length self.now.checked.now.grammar.classes }
        requires child { place.child
            < length (class_at self.now.checked.now.grammar region.class).children }
        requires at { at < length self.now.rows.now }
        ensures name { result.class.now ≡ name.now }
        ensures wanted { result.wanted
            ≡ wanted_of self.now.checked.now.grammar region.class place.child }
        ensures from { result.from ≡ suc at }
        ensures end { result.end ≡ suc at + below }
        ensures parent { result.parent ≡ region.node }
        ensures place { result.place ≡ place }
    {
        let from = at + 1;
        NextNode {
            class: name,
            wanted: self.checked.child(region.class, place.child).interface,
            from,
            end: from + below as usize,
            parent: region.node,
            place,
        }
    }

    /// The number of the child that a field of this name is of; 0 where it is none's.
    fn child_number(&self, class: u32, name: &NameRef<'_>) -> u32
        requires ready { IsReady self.now }
        requires within { class < length self.now.checked.now.grammar.classes }
        ensures child { result ≡ child_number self.now.checked.now.grammar class name.now }
    {
        let table = &self.tables[class as usize].fields;
        match table.place(table.inputs, name.text()) {
            Some(place) => place.saturating_sub(table.inputs),
            None => 0,
        }
    }
}

#[tactic(auto, using(crate::proofs::nodes::Rows::next_row))]
fn row_at<'r, 'a>(rows: &'r [WrittenRow<'a>], at: usize) -> &'r WrittenRow<'a>
    requires within { at < length rows.now }
    ensures row { drop at rows.now ≡ result.now ∷ drop (suc at) rows.now }
{
    &rows[at]
}

/// Where the next node of a list stands.
fn place_of_kid(list: Region) -> Place
    ensures place { result ≡ record { child = list.child; kid = list.kid } }
{
    Place {
        child: list.child,
        kid: list.kid,
    }
}
