//! How far a walk over the rows of a document has come.

ghost use Rattle.std.specs.Prelude.{◌≡◌, ◌+◌, ◌++◌, ◌∷◌, ◌<◌, ◌≤◌, map, suc, OnOk};
ghost use Rattle.ftl_document.specs.nodes.Filled.{input_in};
ghost use Rattle.ftl_document.specs.nodes.Steps.{HasEntered, HasPassed, IsFirst, list_region};

use crate::nodes::stack::{Region, Stack};
use crate::syntax::NameRef;
use ftl_tree::{NodeRow, Place};
use std::alloc::{AllocError, Global};

/// The regions that a walk stands in, the next row, the number of the next node, and of the nodes
/// before it how many attributes they have, their rows in the tree, and their inputs.
#[derive(Drop)]
pub(crate) struct Progress {
    pub(crate) stack: Stack,
    pub(crate) at: usize,
    pub(crate) number: u32,
    pub(crate) count: u64,
    pub(crate) rows: Vec<NodeRow>,
    pub(crate) inputs: Vec<i64>,
}

/// A node that is next: the name of its class, the interface that is wanted of it, the places
/// between which the rows of its fields stand, and its parent with its place there.
#[derive(Clone, Copy)]
pub(crate) struct NextNode<'r, 'a> {
    pub(crate) class: &'r NameRef<'a>,
    pub(crate) wanted: u32,
    pub(crate) from: usize,
    pub(crate) end: usize,
    pub(crate) parent: u32,
    pub(crate) place: Place,
}

impl Progress {
    pub(crate) fn new(alloc: Global) -> Progress
        ensures first { IsFirst result }
    {
        Progress {
            stack: Stack::new(alloc),
            at: 0,
            number: 0,
            count: 0,
            rows: Vec::new(alloc),
            inputs: Vec::new(alloc),
        }
    }

    /// Stands before the nodes of a list, of a node with these fields.
    pub(crate) fn open_list(
        &mut self,
        fields: Region,
        child: u32,
        below: u32,
    ) -> Result<(), AllocError>
        requires at { self.old.at < 4611686018427387904 }
        ensures passed { OnOk result (HasPassed self.old
            (list_region (suc self.old.at + below) fields child ∷ self.old.stack) self.new) }
    {
        let from = self.at + 1;
        self.stack.push(Region {
            end: from + below as usize,
            class: fields.class,
            node: fields.node,
            child,
            kid: 0,
        })?;
        self.at = from;
        Ok(())
    }

    /// Adds a node of this class, which has so many attributes and these inputs, and stands before
    /// its fields.
    pub(crate) fn add_node(
        &mut self,
        next: NextNode<'_, '_>,
        class: u32,
        width: u32,
        inputs: &[Option<i64>],
    ) -> Result<(), AllocError>
        requires number { self.old.number < 4294967295 }
        requires count { self.old.count ≤ 4611686018427387904 }
        ensures entered { OnOk result (HasEntered self.old next.entry class width self.new) }
        ensures inputs { OnOk result (self.new.inputs.items
            ≡ self.old.inputs.items ++ map input_in inputs.now) }
    {
        add_inputs(&mut self.inputs, inputs)?;
        self.rows.push(NodeRow {
            class,
            parent: next.parent,
            place: next.place,
        })?;
        self.stack.push(Region {
            end: next.end,
            class,
            node: self.number,
            child: 0,
            kid: 0,
        })?;
        self.at = next.from;
        self.number += 1;
        self.count += width as u64;
        Ok(())
    }
}

fn add_inputs(inputs: &mut Vec<i64>, values: &[Option<i64>]) -> Result<(), AllocError>
    ensures inputs { OnOk result (inputs.new.items ≡ inputs.old.items ++ map input_in values.now) }
{
    for value in values {
        inputs.push(value.unwrap_or(0))?;
    }
    Ok(())
}
