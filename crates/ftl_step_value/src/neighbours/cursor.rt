//! The cells that a step reads of neighbours, one after the other.
ghost use Rattle.std.specs.Prelude.{◌≡◌, [], is_some, IfNone, IfSome};
ghost use Rattle.std.specs.List.{cons_option};
ghost use Rattle.ftl_deps.specs.reads.Meant.{meant};
ghost use Rattle.ftl_step_value.specs.limits.reads.ReadTables.{IsSound};
ghost use Rattle.ftl_order.specs.steps.Steps.{IsStepOf};
ghost use Rattle.ftl_step_value.specs.cells.ReadCells.{read_cells};
ghost use Rattle.ftl_step_value.specs.neighbours.NeighbourParts.{AreNeighbourParts};
ghost use Rattle.ftl_step_value.specs.neighbours.NeighbourParts.{reads_neighbours};
ghost use Rattle.ftl_step_value.specs.neighbours.NeighbourParts.{neighbour_parts_at};
ghost use Rattle.ftl_step_value.specs.neighbours.NeighbourCells.{AreNeighbours, IsNeighbour};
ghost use Rattle.ftl_step_value.specs.neighbours.NeighbourCells.{neighbour_cell, neighbour_cells};
ghost use Rattle.ftl_step_value.specs.neighbours.NeighbourCells.{first_cell};

use crate::neighbours::parts::NeighbourParts;
use crate::neighbours::reads::{NeighbourRead, NeighbourSite};
use ftl_order::Step;
use ftl_tree::Tree;
use std::marker::Model;

/// A cursor over the cells that a step reads, all of neighbours. It keeps the first cells of their
/// nodes. Contracts see the cells that are left.
#[derive(Drop)]
pub struct NeighbourCells<'a> {
    own: u32,
    kid: u32,
    before: u32,
    reads: &'a [NeighbourRead],
    each: &'a [NeighbourRead],
    kids: &'a [u32],
}

impl<'a> Model for NeighbourCells<'a> {
    ghost use Rattle.std.specs.Prelude.{ℕ, List};

    ghost Value = { List ℕ };

    ghost use Rattle.ftl_step_value.specs.neighbours.NeighbourCells.{IsCursor, cells_left};

    ghost view = { cells_left };

    ghost invariant = { IsCursor };
}

impl<'a> NeighbourCells<'a> {
    /// Before the first cell that a step reads; none where its rule reads elsewhere too.
    #[inline(always)]
    pub fn new(
        parts: &'a [NeighbourParts],
        tree: &'a Tree<'a>,
        step: Step,
    ) -> Option<NeighbourCells<'a>>
        requires sound { IsSound (meant tree.now.checked) }
        requires parts { AreNeighbourParts tree.now.checked parts.now }
        requires step { IsStepOf (meant tree.now.checked) tree.now.tree step }
        ensures cells { IfSome result
            (λ c. c ≡ read_cells (meant tree.now.checked) tree.now.tree step) }
        ensures neighbours { is_some result
            ≡ reads_neighbours (neighbour_parts_at parts.now step.rule) }
    {
        let _nodes = tree.node_count();
        let _cells = tree.instance_count();
        let own = tree.first_instance(step.node);
        match &parts[step.rule as usize] {
            NeighbourParts::Own(reads) => {
                Some(NeighbourCells::of_part(own, 0, 0, reads.as_slice()))
            }
            NeighbourParts::Kids(child, first, later) => {
                let kids = tree.kids_first_instances(step.node, *child);
                let kid = kids[step.kid as usize];
                if step.kid == 0 {
                    return Some(NeighbourCells::of_part(own, kid, 0, first.as_slice()));
                }
                let before = kids[step.kid as usize - 1];
                Some(NeighbourCells::of_part(own, kid, before, later.as_slice()))
            }
            NeighbourParts::Fold(child, start, each) => Some(NeighbourCells {
                own,
                kid: 0,
                before: 0,
                reads: start.as_slice(),
                each: each.as_slice(),
                kids: tree.kids_first_instances(step.node, *child),
            }),
            NeighbourParts::Far => None,
        }
    }

    // Before what a part reads that is read once.
    #[inline(always)]
    fn of_part(own: u32, kid: u32, before: u32, reads: &'a [NeighbourRead]) -> NeighbourCells<'a>
        requires neighbours { AreNeighbours own kid before reads.now }
        ensures cells { result ≡ neighbour_cells own kid before reads.now }
    {
        NeighbourCells {
            own,
            kid,
            before,
            reads,
            each: &[],
            kids: &[],
        }
    }

    /// The next cell; none at the end.
    #[inline(always)]
    pub fn next(&mut self) -> Option<u32>
        ensures next { self.old ≡ cons_option result self.new }
        ensures end { IfNone result (self.new ≡ []) }
    {
        loop {
            if let [read, rest @ ..] = self.reads {
                self.reads = rest;
                return Some(neighbour_cell(self.own, self.kid, self.before, *read));
            }
            if let [kid, rest @ ..] = self.kids {
                self.kids = rest;
                self.kid = *kid;
                self.reads = self.each;
            } else {
                return None;
            }
        }
    }
}

/// The cell of a read, where these are the first cells of the neighbours.
#[inline(always)]
pub(crate) fn neighbour_cell(own: u32, kid: u32, before: u32, read: NeighbourRead) -> u32
    requires neighbours { IsNeighbour own kid before read }
    ensures cell { result ≡ neighbour_cell own kid before read }
{
    first_cell(own, kid, before, read.site) + read.place
}

/// The first cell of the node of a site.
#[inline(always)]
fn first_cell(own: u32, kid: u32, before: u32, site: NeighbourSite) -> u32
    ensures cell { result ≡ first_cell own kid before site }
{
    match site {
        NeighbourSite::Own => own,
        NeighbourSite::Kid => kid,
        NeighbourSite::Before => before,
    }
}
