//! The fields of one node.

ghost use Rattle.std.specs.Prelude.{◌≡◌, ℕ, ◌++◌, ◌+◌, List, [], ◌∷◌, ◌<◌, length, map, OnOk};
ghost use Rattle.std.specs.Prelude.{nat_lt, Some, None, replicate, if◌then◌else◌};
ghost use Rattle.ftl_document.specs.faults.FirstFault.{field_fault, field_faults, first_there};
ghost use Rattle.ftl_document.specs.faults.FirstFault.{missing_fault, needed_names};
ghost use Rattle.ftl_document.specs.faults.FirstFault.{node_fault};
ghost use Rattle.ftl_meaning.specs.faults.Checked.{class_named};
ghost use Rattle.ftl_meaning.specs.faults.Numbering.{interface_of};
ghost use Rattle.ftl_document.specs.fields.OwnFields.{form_of, head_in, is_number, number_of};
ghost use Rattle.ftl_document.specs.fields.OwnFields.{slot_of};
ghost use Rattle.ftl_document.specs.declared.fields.own_field.OwnField.{OwnField};
ghost use Rattle.ftl_document.specs.fields.Placed.{ArePlaced, Finds, IsKnown, node_in};
ghost use Rattle.ftl_document.specs.fields.Placed.{place_has_form};
ghost use Rattle.std.specs.Prelude.{IfSome};
ghost use Rattle.std.specs.List.{position};
ghost use Rattle.std.specs.Option.{is_none};

use crate::faults::DocFault;
use crate::fields::class_table::ClassFields;
use crate::fields::own_field::{FieldValue, OwnField};
use ftl_checked::Checked;
use ftl_tokens::Name;
use std::alloc::{AllocError, Global};

/// A node whose class is known.
pub struct KnownNode<'a> {
    pub checked: &'a Checked,
    pub table: &'a ClassFields,
    pub class: u32,
    pub number: u32,
}

/// What stands in the inputs and children of a node, in the order of the names of its class.
#[derive(Drop)]
pub struct Slots {
    /// The number of each input, and 0 for a child; none where no field came.
    pub values: Vec<Option<i64>>,
    /// The place of the last child that came; 0 where none did.
    pub latest: u32,
    /// The place behind that of the field that came last, where the next one is expected.
    pub next: u32,
}

impl<'a> KnownNode<'a> {
    /// The first fault of the fields of the node, in the order of the text, or else what they put
    /// into the slots.
    pub fn place_fields(
        &self,
        alloc: Global,
        fields: &[OwnField<'_>],
        slots: &mut Slots,
    ) -> Result<(), DocFault>
        requires known { IsKnown self.now }
        ensures exact { Finds (first_there (field_faults self.now.checked.now.grammar
            self.now.number self.now.class [] (map head_in fields.now))) result }
        ensures placed { OnOk result (slots.new.values.items ≡ map (slot_of fields.now)
            (needed_names self.now.checked.now.grammar self.now.class)) }
    {
        slots.values.clear();
        slots.latest = 0;
        slots.next = 0;
        add_empty(&mut slots.values, self.table.names.names().len())?;
        for field in fields {
            self.place(alloc, field, slots)?;
        }
        Ok(())
    }

    /// The first fault of a node of this class, whose interface is the one that is wanted, or else
    /// what its fields put into the slots.
    #[tactic(auto, using(crate::proofs::fields::NodeFaults::node_fault_is))]
    pub fn check_fields(
        &self,
        alloc: Global,
        fields: &[OwnField<'_>],
        slots: &mut Slots,
    ) -> Result<(), DocFault>
        requires known { IsKnown self.now }
        ensures exact { (class : List ℕ) (wanted : ℕ)
            → class_named self.now.checked.now.grammar class ≡ Some self.now.class
            → interface_of self.now.checked.now.grammar self.now.class ≡ wanted
            → Finds (node_fault self.now.checked.now.grammar (
              self.now.number,
              node_in wanted class
                  fields.now,
            )) result }
        ensures placed { OnOk result (slots.new.values.items ≡ map (slot_of fields.now)
            (needed_names self.now.checked.now.grammar self.now.class)) }
    {
        self.place_fields(alloc, fields, slots)?;
        self.all_there(slots)
    }

    /// The first input or child that no field put anything into, where the slots are full of what
    /// some fields put there.
    pub fn all_there(&self, slots: &Slots) -> Result<(), DocFault>
        requires known { IsKnown self.now }
        requires room { length slots.now.values.items
            ≡ length (needed_names self.now.checked.now.grammar self.now.class) }
        ensures exact { (fields : List OwnField) → slots.now.values.items
            ≡ map (slot_of fields) (needed_names self.now.checked.now.grammar self.now.class)
            → Finds (missing_fault self.now.checked.now.grammar self.now.number self.now.class
            (map head_in fields)) result }
    {
        match first_empty(&slots.values) {
            None => Ok(()),
            Some(place) => {
                let name = self.table.names.names()[place].copy()?;
                Err(DocFault::FieldMissing {
                    node: self.number,
                    name,
                })
            }
        }
    }

    /// The fault of one field, whatever fields stand before it, or else what it puts into its slot.
    fn place(&self, alloc: Global, field: &OwnField<'_>, slots: &mut Slots) -> Result<(), DocFault>
        requires known { IsKnown self.now }
        requires room { length slots.old.values.items
            ≡ length (needed_names self.now.checked.now.grammar self.now.class) }
        ensures exact { (earlier : List OwnField)
            → ArePlaced self.now.checked.now.grammar self.now.class earlier slots.old
            → Finds (field_fault self.now.checked.now.grammar self.now.number self.now.class
            (map head_in earlier) (head_in field.now)) result }
        ensures placed { OnOk result ((earlier : List OwnField)
            → ArePlaced self.now.checked.now.grammar self.now.class earlier slots.old
            → ArePlaced self.now.checked.now.grammar self.now.class (earlier ++ field.now ∷ [])
            slots.new) }
    {
        let Some(place) = self.table.place(slots.next, field.name.text()) else {
            let name = Name::new(alloc, field.name.text())?;
            return Err(DocFault::UnknownField {
                node: self.number,
                name,
            });
        };
        if slots.values[place as usize].is_some() {
            let name = Name::new(alloc, field.name.text())?;
            return Err(DocFault::FieldTwice {
                node: self.number,
                name,
            });
        }
        if !self.has_form(place, field.value) {
            let name = Name::new(alloc, field.name.text())?;
            return Err(DocFault::FieldForm {
                node: self.number,
                name,
            });
        }
        if place >= self.table.inputs && place < slots.latest {
            let name = Name::new(alloc, field.name.text())?;
            return Err(DocFault::FieldOrder {
                node: self.number,
                name,
            });
        }
        slots.values[place as usize] = filled(field.value);
        slots.latest = self.latest(place, slots.latest);
        slots.next = place.wrapping_add(1);
        Ok(())
    }

    /// Whether an input stands as a number, a single child as a node, and a list child as a list.
    fn has_form(&self, place: u32, value: FieldValue) -> bool
        requires known { IsKnown self.now }
        requires place { place < length self.now.table.now.names }
        ensures form { result ≡ place_has_form self.now.checked.now.grammar self.now.class place
            (form_of value) }
    {
        if place < self.table.inputs {
            return value_is_number(value);
        }
        let many = self
            .checked
            .child(self.class, place - self.table.inputs)
            .many;
        match value {
            FieldValue::Number(_) => false,
            FieldValue::Node => !many,
            FieldValue::List => many,
        }
    }

    fn latest(&self, place: u32, latest: u32) -> u32
        ensures latest { result ≡ if nat_lt place self.now.table.now.inputs then latest else place }
    {
        if place < self.table.inputs {
            latest
        } else {
            place
        }
    }
}

fn value_is_number(value: FieldValue) -> bool
    ensures number { result ≡ is_number (form_of value) }
{
    match value {
        FieldValue::Number(_) => true,
        FieldValue::Node | FieldValue::List => false,
    }
}

/// The place of the first empty slot.
fn first_empty(values: &[Option<i64>]) -> Option<usize>
    ensures place { result ≡ position is_none values.now }
    ensures within { IfSome result (λ place. place < length values.now) }
{
    values.iter().position(|value| value.is_none())
}

/// What a field puts into its slot.
fn filled(value: FieldValue) -> Option<i64>
    ensures number { result ≡ Some (number_of value) }
{
    match value {
        FieldValue::Number(number) => Some(number),
        FieldValue::Node | FieldValue::List => Some(0),
    }
}

fn add_empty(values: &mut Vec<Option<i64>>, count: usize) -> Result<(), AllocError>
    ensures added { OnOk result (values.new.items ≡ values.old.items ++ replicate count None) }
{
    for _place in 0..count {
        values.push(None)?;
    }
    Ok(())
}
