//! What is kept of each class while the nodes of a document are looked at.

ghost use Rattle.std.specs.Prelude.{◌≡◌, ◌+◌, ◌<◌, ◌≤◌, length, IfOk, OnOk, None};
ghost use Rattle.ftl_meaning.specs.faults.FirstFault.{first_fault};
ghost use Rattle.ftl_meaning.specs.faults.Numbering.{class_at, class_attributes, interface_at};
ghost use Rattle.ftl_document.specs.nodes.Tables.{AreTables, IsTableOf};

use crate::fields::{ClassFields, class_fields};
use ftl_checked::Checked;
use ftl_grammar::Grammar;
use std::alloc::{AllocError, Global};

/// The names of a class's fields, and how many attributes the class has.
#[derive(Drop)]
pub(crate) struct ClassTable {
    pub(crate) fields: ClassFields,
    pub(crate) width: u32,
}

/// A table for each class, in the order of their numbers.
pub(crate) fn class_tables(alloc: Global, checked: &Checked) -> Result<Vec<ClassTable>, AllocError>
    ensures tables { IfOk result (λ ts. AreTables checked.now.grammar ts.items) }
    ensures count { IfOk result (λ ts. length ts.items ≡ length checked.now.grammar.classes) }
    ensures lawful { OnOk result (first_fault checked.now.grammar ≡ None) }
{
    let mut tables = Vec::with_capacity(alloc, checked.grammar().classes.len())?;
    for class in 0..checked.class_count() {
        tables.push(class_table(alloc, checked, class)?)?;
    }
    Ok(tables)
}

fn class_table(alloc: Global, checked: &Checked, class: u32) -> Result<ClassTable, AllocError>
    requires within { class < length checked.now.grammar.classes }
    ensures table { IfOk result (λ t. IsTableOf checked.now.grammar class t) }
{
    let fields = class_fields(alloc, checked, class)?;
    let width = attribute_count(checked, class);
    Ok(ClassTable { fields, width })
}

/// How many attributes a class has, its interface's and its own.
fn attribute_count(checked: &Checked, class: u32) -> u32
    requires within { class < length checked.now.grammar.classes }
    ensures count { result ≡ length (class_attributes checked.now.grammar class) }
    ensures few { result ≤ 128 }
{
    let grammar = checked.grammar();
    let shared = shared_count(grammar, checked.interface_of(class) as usize);
    let own = own_count(grammar, class as usize);
    (shared + own) as u32
}

fn shared_count(grammar: &Grammar, interface: usize) -> usize
    ensures count { result ≡ length (interface_at grammar.now interface).attrs }
{
    if interface >= grammar.interfaces.len() {
        return 0;
    }
    grammar.interfaces.as_slice()[interface].attrs.len()
}

fn own_count(grammar: &Grammar, class: usize) -> usize
    requires within { class < length grammar.now.classes }
    ensures count { result ≡ length (class_at grammar.now class).attrs }
{
    grammar.classes.as_slice()[class].attrs.len()
}
