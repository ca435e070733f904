//! A node that a walk comes to.

ghost use Rattle.std.specs.Prelude.{◌≡◌, suc, ◌≤◌, length, slice_range, IfOk, OnOk};
ghost use Rattle.ftl_document.specs.syntax.Rows.{rows_of_fields};
ghost use Rattle.ftl_document.specs.syntax.Written.{WrittenFields, WrittenNode};
ghost use Rattle.ftl_document.specs.faults.FirstFault.{node_fault};
ghost use Rattle.ftl_document.specs.faults.Nodes.{standing};
ghost use Rattle.ftl_document.specs.fields.Placed.{IsClassOf};
ghost use Rattle.ftl_document.specs.nodes.Filled.{AreFilled};
ghost use Rattle.ftl_document.specs.nodes.Found.{FindsFault};
ghost use Rattle.ftl_document.specs.nodes.Walk.{CanEnter, GoesOn, IsNext, IsReady};

use crate::faults::DocFault;
use crate::fields::{KnownNode, OwnField, Slots, known_class, own_fields};
use crate::nodes::progress::{NextNode, Progress};
use crate::nodes::walk::Walk;
use std::alloc::{AllocError, Global};

/// Room for what is known of one node.
#[derive(Drop)]
pub(crate) struct Scratch<'a> {
    fields: Vec<OwnField<'a>>,
    slots: Slots,
    /// The class of the last node of each interface.
    classes: Vec<u32>,
}

impl<'a> Scratch<'a> {
    pub(crate) fn new(alloc: Global, interfaces: u32) -> Result<Scratch<'a>, AllocError> {
        Ok(Scratch {
            fields: Vec::new(alloc),
            slots: Slots {
                values: Vec::new(alloc),
                latest: 0,
                next: 0,
            },
            classes: vec![in alloc; 0; interfaces as usize]?,
        })
    }

    /// The class of the last node of this interface, any where none came.
    fn last_class(&self, interface: u32) -> u32 {
        self.classes.get(interface as usize).copied().unwrap_or(0)
    }
}

impl<'a> Walk<'a> {
    /// Looks at a node, and stands before its fields.
    pub(crate) fn enter(
        &self,
        alloc: Global,
        next: NextNode<'_, 'a>,
        scratch: &mut Scratch<'a>,
        progress: &mut Progress,
    ) -> Result<(), DocFault>
        requires ready { IsReady self.now }
        requires next { CanEnter self.now progress.old next }
        ensures exact { (node : WrittenNode)
            → IsNext self.now.checked.now.grammar node self.now.rows.now progress.old
            next.entry.class.now next.entry.wanted next.entry.from next.entry.end
            next.entry.parent next.entry.place
            → GoesOn self.now.checked.now.grammar node self.now.rows.now result progress.new }
        ensures at { OnOk result (progress.new.at ≡ next.entry.from) }
        ensures few { OnOk result (length progress.new.stack ≡ suc (length progress.old.stack)) }
    {
        let class = self.check_node(alloc, next, progress.number, scratch)?;
        let table = &self.tables[class as usize];
        let inputs = &scratch.slots.values[..table.fields.inputs as usize];
        progress.add_node(next, class, table.width, inputs)?;
        Ok(())
    }

    /// The class of a node without a fault, whose inputs the slots hold then.
    fn check_node(
        &self,
        alloc: Global,
        next: NextNode<'_, 'a>,
        number: u32,
        scratch: &mut Scratch<'a>,
    ) -> Result<u32, DocFault>
        requires ready { IsReady self.now }
        requires from { next.from ≤ next.end }
        requires end { next.end ≤ length self.now.rows.now }
        ensures class { IfOk result (λ k. IsClassOf self.now.checked.now.grammar next.entry.wanted
            next.entry.class.now k) }
        ensures exact { (fields : WrittenFields)
            → slice_range self.now.rows.now next.entry.from next.entry.end ≡ rows_of_fields fields
            → FindsFault (node_fault self.now.checked.now.grammar (
              number,
              standing next.entry.wanted next.entry.class.now fields,
            )) result }
        ensures filled { (fields : WrittenFields)
            → slice_range self.now.rows.now next.entry.from next.entry.end ≡ rows_of_fields fields
            → IfOk result (λ k.
            AreFilled self.now.checked.now.grammar k fields scratch.new.slots) }
    {
        let guess = scratch.last_class(next.wanted);
        let class = known_class(alloc, self.checked, number, next.wanted, guess, next.class)?;
        set_class(&mut scratch.classes, next.wanted, class);
        own_fields(&self.rows[next.from..next.end], &mut scratch.fields)?;
        let node = KnownNode {
            checked: self.checked,
            table: &self.tables[class as usize].fields,
            class,
            number,
        };
        let found = node.check_fields(alloc, &scratch.fields, &mut scratch.slots);
        let KnownNode {
            checked: _checked,
            table: _table,
            class,
            number: _number,
        } = node;
        found?;
        Ok(class)
    }
}

fn set_class(classes: &mut [u32], interface: u32, class: u32) {
    if let Some(last) = classes.get_mut(interface as usize) {
        *last = class;
    }
}
