//! Look-ups by name.
ghost use Rattle.std.specs.Prelude.{◌≡◌, ◌+◌, ◌<◌, length, IfSome};
ghost use Rattle.std.specs.Option.{option_map};
ghost use Rattle.ftl_meaning.specs.faults.Counts.{IsSmall, HasSmallCounts};
ghost use Rattle.ftl_meaning.specs.faults.Checked.{child_info};
ghost use Rattle.ftl_meaning.specs.faults.FirstFault.{attribute_names};
ghost use Rattle.ftl_checked.specs.lookup.Found.{found_attribute, found_child};
ghost use Rattle.ftl_meaning.specs.faults.Numbering.{class_at, class_attributes, find_attribute};
ghost use Rattle.ftl_meaning.specs.faults.Numbering.{find_child, interface_at, numbered};
ghost use Rattle.ftl_meaning.specs.faults.Numbering.{own_attributes, shared_attributes, child_at};
ghost use Rattle.ftl_checked.specs.lookup.Tables.{interface_entry, class_entry, tables_of};

use crate::lookup::tables::{ClassTable, InterfaceTable, Tables};
use crate::names::NameTable;
use ftl_grammar::{AttrDecl, AttrKind, Class, Grammar, Interface};
use ftl_meaning::ChildInfo;

/// An attribute that was found by name.
#[derive(Clone, Copy)]
pub struct FoundAttr {
    pub number: u32,
    pub kind: AttrKind,
}

/// A child that was found by name.
#[derive(Clone, Copy)]
pub struct FoundChild {
    pub number: u32,
    pub info: ChildInfo,
}

pub fn interface(grammar: &Grammar, interface: u32) -> &Interface
    requires within { interface < length grammar.now.interfaces }
    ensures interface { result.now ≡ interface_at grammar.now interface }
{
    &grammar.interfaces.as_slice()[interface as usize]
}

pub fn class(grammar: &Grammar, class: u32) -> &Class
    requires within { class < length grammar.now.classes }
    ensures class { result.now ≡ class_at grammar.now class }
{
    &grammar.classes.as_slice()[class as usize]
}

pub fn interface_table<'a>(
    grammar: &Grammar,
    tables: &'a Tables,
    interface: u32,
) -> &'a InterfaceTable
    requires tables { tables.now ≡ tables_of grammar.now }
    requires within { interface < length grammar.now.interfaces }
    ensures table { result.now
        ≡ interface_entry grammar.now (interface, interface_at grammar.now interface) }
{
    &tables.interfaces.as_slice()[interface as usize]
}

pub fn class_table<'a>(grammar: &Grammar, tables: &'a Tables, class: u32) -> &'a ClassTable
    requires tables { tables.now ≡ tables_of grammar.now }
    requires within { class < length grammar.now.classes }
    ensures table { result.now ≡ class_entry grammar.now (class, class_at grammar.now class) }
{
    &tables.classes.as_slice()[class as usize]
}

/// The attribute of this name among some that are numbered from `start` on.
fn attr_in(names: &NameTable, attrs: &[AttrDecl], start: u32, name: &str) -> Option<FoundAttr>
    requires names { names.now ≡ attribute_names attrs.now }
    requires small { IsSmall (start + length attrs.now) }
    ensures found { result
        ≡ option_map found_attribute (find_attribute name.now (numbered start attrs.now)) }
{
    match names.place(name) {
        Some(place) => Some(FoundAttr {
            number: start + place,
            kind: attrs[place as usize].kind,
        }),
        None => None,
    }
}

/// The attribute of this name of an interface, none of one that is not there.
pub fn shared_attr(grammar: &Grammar, tables: &Tables, number: u32, name: &str) -> Option<FoundAttr>
    requires small { HasSmallCounts grammar.now }
    requires tables { tables.now ≡ tables_of grammar.now }
    ensures found { result ≡ option_map found_attribute
        (find_attribute name.now (shared_attributes grammar.now number)) }
{
    if number as usize >= grammar.interfaces.len() {
        return None;
    }
    let table = interface_table(grammar, tables, number);
    let attrs = interface(grammar, number).attrs.as_slice();
    attr_in(&table.names, attrs, table.start, name)
}

/// The attribute of this name among a class's own.
pub fn own_attr(grammar: &Grammar, tables: &Tables, number: u32, name: &str) -> Option<FoundAttr>
    requires small { HasSmallCounts grammar.now }
    requires tables { tables.now ≡ tables_of grammar.now }
    requires within { number < length grammar.now.classes }
    ensures found { result ≡ option_map found_attribute
        (find_attribute name.now (own_attributes grammar.now number)) }
{
    let table = class_table(grammar, tables, number);
    let attrs = class(grammar, number).attrs.as_slice();
    attr_in(&table.own, attrs, table.start, name)
}

/// The attribute of this name of a class.
pub fn class_attr(grammar: &Grammar, tables: &Tables, number: u32, name: &str) -> Option<FoundAttr>
    requires small { HasSmallCounts grammar.now }
    requires tables { tables.now ≡ tables_of grammar.now }
    requires within { number < length grammar.now.classes }
    ensures found { result ≡ option_map found_attribute
        (find_attribute name.now (class_attributes grammar.now number)) }
{
    let interface = class_table(grammar, tables, number).interface;
    match shared_attr(grammar, tables, interface, name) {
        Some(found) => Some(found),
        None => own_attr(grammar, tables, number, name),
    }
}

/// The child of this name of a class.
pub fn child(grammar: &Grammar, tables: &Tables, number: u32, name: &str) -> Option<FoundChild>
    requires tables { tables.now ≡ tables_of grammar.now }
    requires within { number < length grammar.now.classes }
    ensures found { result ≡ option_map (found_child grammar.now)
        (find_child grammar.now number name.now) }
    ensures within { IfSome result
        (λ c. c.number < length (class_at grammar.now number).children) }
{
    let table = class_table(grammar, tables, number);
    match table.child_names.place(name) {
        Some(place) => Some(FoundChild {
            number: place,
            info: table.children.as_slice()[place as usize],
        }),
        None => None,
    }
}

/// What is known of a child.
pub fn child_of(grammar: &Grammar, tables: &Tables, number: u32, child: u32) -> ChildInfo
    requires tables { tables.now ≡ tables_of grammar.now }
    requires within { number < length grammar.now.classes }
    requires child { child < length (class_at grammar.now number).children }
    ensures info { result ≡ child_info grammar.now (child_at grammar.now number child) }
{
    class_table(grammar, tables, number).children.as_slice()[child as usize]
}
