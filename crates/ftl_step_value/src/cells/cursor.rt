//! The cells that a step reads, one after the other.
ghost use Rattle.std.specs.Prelude.{◌≡◌, ◌<◌, [], map, IfNone};
ghost use Rattle.std.specs.List.{cons_option};
ghost use Rattle.ftl_deps.specs.reads.Meant.{meant};
ghost use Rattle.ftl_model.specs.layout.AttributeGrammar.{seen_by};
ghost use Rattle.ftl_model.specs.layout.Tree.{size};
ghost use Rattle.ftl_order.specs.orders.Lawful.{EachMay};
ghost use Rattle.ftl_deps.specs.parts.RuleParts.{read_meant};
ghost use Rattle.ftl_visit.specs.step_reads.StepReads.{kids_in};
ghost use Rattle.ftl_step_value.specs.limits.reads.ReadTables.{AreTables, IsSound};
ghost use Rattle.ftl_order.specs.steps.Steps.{IsStepOf};
ghost use Rattle.ftl_step_value.specs.cells.ReadCells.{read_cells};
ghost use Rattle.ftl_step_value.specs.cells.Seen.{IsThere, cell_seen};

use crate::cells::parts::step_parts;
use crate::cells::seen::read_cell;
use crate::limits::ReadTables;
use ftl_deps::{PartRead, RuleParts};
use ftl_order::Step;
use ftl_tree::Tree;
use std::marker::Model;

/// A cursor over the cells that a step reads. Contracts see the cells that are left.
#[derive(Drop)]
pub struct StepReads<'a> {
    tree: &'a Tree<'a>,
    node: u32,
    at_hand: u32,
    reads: &'a [PartRead],
    place: usize,
    step: &'a [PartRead],
    next_kid: u32,
    kids_left: u32,
}

impl<'a> Model for StepReads<'a> {
    ghost use Rattle.std.specs.Prelude.{ℕ, List};

    ghost Value = { List ℕ };

    ghost use Rattle.ftl_step_value.specs.cells.Cursor.{IsCursor, cells_left};

    ghost view = { cells_left };

    ghost invariant = { IsCursor };
}

impl<'a> StepReads<'a> {
    /// Before the first cell that a step reads.
    #[inline(always)]
    pub fn new(tables: &'a ReadTables, tree: &'a Tree<'a>, step: Step) -> StepReads<'a>
        requires sound { IsSound (meant tree.now.checked) }
        requires tables { AreTables (meant tree.now.checked) tables.now }
        requires step { IsStepOf (meant tree.now.checked) tree.now.tree step }
        ensures cells { result ≡ read_cells (meant tree.now.checked) tree.now.tree step }
    {
        let _nodes = tree.node_count();
        let parts = step_parts(tables, tree, step);
        match parts {
            RuleParts::Plain(reads) => StepReads::of_part(tree, step, reads.as_slice()),
            RuleParts::FirstThen(first, later) => {
                if step.kid == 0 {
                    return StepReads::of_part(tree, step, first.as_slice());
                }
                StepReads::of_part(tree, step, later.as_slice())
            }
            RuleParts::FoldOver(child, start, each) => StepReads {
                tree,
                node: step.node,
                at_hand: step.kid,
                reads: start.as_slice(),
                place: 0,
                step: each.as_slice(),
                next_kid: 0,
                kids_left: tree.kid_count(step.node, *child),
            },
        }
    }

    // Before what a part reads that is read once; what a fold takes again is nothing.
    #[inline(always)]
    fn of_part(tree: &'a Tree<'a>, step: Step, reads: &'a [PartRead]) -> StepReads<'a>
        requires node { step.node < size tree.now.tree }
        requires reads { EachMay (IsThere tree.now step.node step.kid) (map read_meant reads.now) }
        ensures cells { result ≡ map (cell_seen tree.now step.node)
            (seen_by (kids_in tree.now step.node) step.kid (map read_meant reads.now)) }
    {
        StepReads {
            tree,
            node: step.node,
            at_hand: step.kid,
            reads,
            place: 0,
            step: reads,
            next_kid: 0,
            kids_left: 0,
        }
    }

    /// The next cell; none at the end.
    #[inline(always)]
    pub fn next(&mut self) -> Option<u32>
        ensures next { self.old ≡ cons_option result self.new }
        ensures end { IfNone result (self.new ≡ []) }
    {
        loop {
            if self.place < self.reads.len() {
                let read = self.reads[self.place];
                self.place += 1;
                let cell = read_cell(self.tree, self.node, read, self.at_hand);
                if cell.is_some() {
                    return cell;
                }
            } else if self.kids_left == 0 {
                return None;
            } else {
                self.at_hand = self.next_kid;
                self.reads = self.step;
                self.place = 0;
                self.next_kid += 1;
                self.kids_left -= 1;
            }
        }
    }
}
