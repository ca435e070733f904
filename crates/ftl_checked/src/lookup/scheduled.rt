//! Look-ups of what a schedule names.
ghost use Rattle.std.specs.Prelude.{◌≡◌, ◌<◌, length};
ghost use Rattle.ftl_meaning.specs.faults.Checked.{attribute_named, is_own_computed};
ghost use Rattle.ftl_meaning.specs.faults.Checked.{is_shared_computed};
ghost use Rattle.ftl_meaning.specs.faults.Checked.{local_named, shared_named};
ghost use Rattle.ftl_meaning.specs.faults.Counts.{HasSmallCounts};
ghost use Rattle.ftl_checked.specs.lookup.Tables.{tables_of};

use crate::lookup::find::{own_attr, shared_attr};
use crate::lookup::tables::{Tables, interface_named};
use ftl_grammar::{AttrKind, Grammar};

/// The computed attribute of this name that the interface or class of this name declares.
pub fn attribute_in(grammar: &Grammar, tables: &Tables, owner: &str, attr: &str) -> Option<u32>
    requires small { HasSmallCounts grammar.now }
    requires tables { tables.now ≡ tables_of grammar.now }
    ensures attribute { result ≡ attribute_named grammar.now owner.now attr.now }
{
    let interface = interface_named(grammar, &tables.names, owner);
    match shared_in(grammar, tables, interface, attr) {
        Some(number) => Some(number),
        None => match tables.class_names.place(owner) {
            Some(class) => local_in(grammar, tables, class, attr),
            None => None,
        },
    }
}

/// An inherited or synthesized attribute of an interface.
fn shared_in(grammar: &Grammar, tables: &Tables, interface: u32, attr: &str) -> Option<u32>
    requires small { HasSmallCounts grammar.now }
    requires tables { tables.now ≡ tables_of grammar.now }
    ensures attribute { result ≡ shared_named grammar.now interface attr.now }
{
    match shared_attr(grammar, tables, interface, attr) {
        Some(found) if is_shared_computed(found.kind) => Some(found.number),
        _ => None,
    }
}

/// A local of a class.
fn local_in(grammar: &Grammar, tables: &Tables, class: u32, attr: &str) -> Option<u32>
    requires small { HasSmallCounts grammar.now }
    requires tables { tables.now ≡ tables_of grammar.now }
    requires within { class < length grammar.now.classes }
    ensures attribute { result ≡ local_named grammar.now class attr.now }
{
    match own_attr(grammar, tables, class, attr) {
        Some(found) if is_own_computed(found.kind) => Some(found.number),
        _ => None,
    }
}

fn is_shared_computed(kind: AttrKind) -> bool
    ensures computed { result ≡ is_shared_computed kind }
{
    match kind {
        AttrKind::Inh | AttrKind::Syn => true,
        AttrKind::Input | AttrKind::Local => false,
    }
}

fn is_own_computed(kind: AttrKind) -> bool
    ensures computed { result ≡ is_own_computed kind }
{
    match kind {
        AttrKind::Local => true,
        AttrKind::Inh | AttrKind::Syn | AttrKind::Input => false,
    }
}
