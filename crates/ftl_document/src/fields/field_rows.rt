//! The fields of a node, from its rows.

ghost use Rattle.std.specs.Prelude.{◌≡◌, ◌++◌, ◌<◌, IfOk, OnOk};
ghost use Rattle.ftl_document.specs.syntax.Rows.{rows_of_fields};
ghost use Rattle.ftl_document.specs.syntax.Written.{WrittenFields};
ghost use Rattle.ftl_document.specs.fields.OwnFields.{fields_in, inside, own_of};

use crate::fields::own_field::{FieldValue, OwnField};
use crate::syntax::{NameRef, WrittenRow};
use std::alloc::AllocError;

/// The fields of a node, from the rows of its fields. What stands inside a field is passed over.
pub fn own_fields<'a>(
    rows: &[WrittenRow<'a>],
    fields: &mut Vec<OwnField<'a>>,
) -> Result<(), AllocError>
    ensures fields { OnOk result ((written : WrittenFields) → rows.now ≡ rows_of_fields written
        → fields.new.items ≡ own_of written) }
{
    fields.clear();
    let mut at = 0;
    while at < rows.len() {
        let inside = add_row(&rows[at], fields)?;
        at += 1 + inside as usize;
    }
    Ok(())
}

/// Adds the field of a row, and tells how many rows stand inside it.
fn add_row<'a>(row: &WrittenRow<'a>, fields: &mut Vec<OwnField<'a>>) -> Result<u32, AllocError>
    ensures inside { IfOk result (λ n. n ≡ inside row.now) }
    ensures added { OnOk result (fields.new.items ≡ fields.old.items ++ fields_in row.now) }
{
    match row {
        WrittenRow::Number { name, value } => {
            fields.push(OwnField {
                name: NameRef::new(name.text()),
                value: FieldValue::Number(*value),
            })?;
            Ok(0)
        }
        WrittenRow::Single { name, below, .. } => {
            fields.push(OwnField {
                name: NameRef::new(name.text()),
                value: FieldValue::Node,
            })?;
            Ok(*below)
        }
        WrittenRow::List { name, below } => {
            fields.push(OwnField {
                name: NameRef::new(name.text()),
                value: FieldValue::List,
            })?;
            Ok(*below)
        }
        WrittenRow::Kid { below, .. } => Ok(*below),
    }
}
