//! Look-ups of what a document names.
ghost use Rattle.std.specs.Prelude.{◌≡◌, ◌<◌, length};
ghost use Rattle.ftl_meaning.specs.faults.Checked.{field_named, is_input};
ghost use Rattle.ftl_meaning.specs.faults.Counts.{HasSmallCounts};
ghost use Rattle.ftl_checked.specs.lookup.Tables.{tables_of};

use crate::lookup::find::{child, class_attr};
use crate::lookup::tables::Tables;
use ftl_grammar::{AttrKind, Grammar};
use ftl_meaning::Field;

/// The input or child of this name.
pub fn field_in(grammar: &Grammar, tables: &Tables, class: u32, name: &str) -> Option<Field>
    requires small { HasSmallCounts grammar.now }
    requires tables { tables.now ≡ tables_of grammar.now }
    requires within { class < length grammar.now.classes }
    ensures field { result ≡ field_named grammar.now class name.now }
{
    match class_attr(grammar, tables, class, name) {
        Some(found) => {
            if is_input(found.kind) {
                Some(Field::Input(found.number))
            } else {
                None
            }
        }
        None => match child(grammar, tables, class, name) {
            Some(found) => Some(Field::Child(found.number)),
            None => None,
        },
    }
}

fn is_input(kind: AttrKind) -> bool
    ensures input { result ≡ is_input kind }
{
    match kind {
        AttrKind::Input => true,
        AttrKind::Inh | AttrKind::Syn | AttrKind::Local => false,
    }
}
