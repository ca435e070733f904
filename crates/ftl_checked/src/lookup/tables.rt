//! Tables beside a grammar, in which names are looked up.
ghost use Rattle.std.specs.Prelude.{◌≡◌, ◌+◌, ◌++◌, length, map, take, IfOk, nat_lt};
ghost use Rattle.std.specs.Prelude.{if◌then◌else◌};
ghost use Rattle.std.specs.Option.{option_map_or};
ghost use Rattle.ftl_meaning.specs.faults.Counts.{IsSmall, HasSmallCounts};
ghost use Rattle.ftl_meaning.specs.faults.Checked.{child_info};
ghost use Rattle.ftl_meaning.specs.faults.FirstFault.{attribute_names, limit_fault};
ghost use Rattle.ftl_meaning.specs.faults.Numbering.{class_names, interface_names};
ghost use Rattle.ftl_meaning.specs.faults.Numbering.{interface_number};
ghost use Rattle.ftl_meaning.specs.faults.Numbering.{numbered, own_count, shared_count};
ghost use Rattle.ftl_checked.specs.lookup.Tables.{interface_entry, interface_table, class_entry};
ghost use Rattle.ftl_checked.specs.lookup.Tables.{class_table, tables_of};

use crate::names::NameTable;
use ftl_grammar::{AttrDecl, Child, Class, Grammar, Interface};
use ftl_meaning::ChildInfo;
use ftl_tokens::Name;
use sqlite_items::Items;
use std::alloc::{AllocError, Global};

/// What is kept of an interface.
#[derive(Drop)]
pub struct InterfaceTable {
    /// The number of its first attribute.
    pub start: u32,
    pub names: NameTable,
}

/// What is kept of a class.
#[derive(Drop)]
pub struct ClassTable {
    pub interface: u32,
    /// The number of its first own attribute.
    pub start: u32,
    /// The names of its own attributes.
    pub own: NameTable,
    pub child_names: NameTable,
    pub children: Items<ChildInfo>,
}

/// What is kept of a grammar.
#[derive(Drop)]
pub struct Tables {
    /// The names of the interfaces, and then of the classes.
    pub names: NameTable,
    pub class_names: NameTable,
    pub interfaces: Items<InterfaceTable>,
    pub classes: Items<ClassTable>,
}

pub fn build_tables(alloc: Global, grammar: &Grammar) -> Result<Tables, AllocError>
    requires small { HasSmallCounts grammar.now }
    requires names { IsSmall (length (interface_names grammar.now ++ class_names grammar.now)) }
    ensures tables { IfOk result (λ t. t ≡ tables_of grammar.now) }
{
    let names = NameTable::new(alloc, grammar_names(alloc, grammar)?)?;
    let class_names = NameTable::new(alloc, names_of(alloc, grammar.classes.as_slice())?)?;
    let interfaces = interface_tables(alloc, grammar.interfaces.as_slice())?;
    let classes = class_tables(alloc, grammar, &names)?;
    Ok(Tables {
        names,
        class_names,
        interfaces,
        classes,
    })
}

fn grammar_names(alloc: Global, grammar: &Grammar) -> Result<Items<Name>, AllocError>
    ensures names { IfOk result (λ n. n ≡ interface_names grammar.now ++ class_names grammar.now) }
{
    let mut names = Items::new(alloc);
    for interface in grammar.interfaces.as_slice() {
        names.push(interface.name.copy()?)?;
    }
    for class in grammar.classes.as_slice() {
        names.push(class.name.copy()?)?;
    }
    Ok(names)
}

fn names_of(alloc: Global, classes: &[Class]) -> Result<Items<Name>, AllocError>
    ensures names { IfOk result (λ n. n ≡ map (λ k. k.name) classes.now) }
{
    let mut names = Items::new(alloc);
    for class in classes {
        names.push(class.name.copy()?)?;
    }
    Ok(names)
}

fn attr_names(alloc: Global, attrs: &[AttrDecl]) -> Result<Items<Name>, AllocError>
    ensures names { IfOk result (λ n. n ≡ attribute_names attrs.now) }
{
    let mut names = Items::new(alloc);
    for attr in attrs {
        names.push(attr.name.copy()?)?;
    }
    Ok(names)
}

fn child_names(alloc: Global, children: &[Child]) -> Result<Items<Name>, AllocError>
    ensures names { IfOk result (λ n. n ≡ map (λ c. c.name) children.now) }
{
    let mut names = Items::new(alloc);
    for child in children {
        names.push(child.name.copy()?)?;
    }
    Ok(names)
}

#[tactic(auto, using(ftl_meaning::proofs::faults::Numbered::numbered_steps))]
fn interface_tables(
    alloc: Global,
    interfaces: &[Interface],
) -> Result<Items<InterfaceTable>, AllocError>
    requires small { IsSmall (shared_count interfaces.now) }
    ensures tables { IfOk result (λ t. t ≡ map (λ x. interface_table
        (shared_count (take x.0 interfaces.now)) x.1) (numbered 0 interfaces.now)) }
{
    let mut tables = Items::new(alloc);
    let mut start = 0;
    for interface in interfaces {
        tables.push(one_interface(alloc, interface, start)?)?;
        start += interface.attrs.len() as u32;
    }
    Ok(tables)
}

fn one_interface(
    alloc: Global,
    interface: &Interface,
    start: u32,
) -> Result<InterfaceTable, AllocError>
    requires attrs { IsSmall (length interface.now.attrs) }
    ensures table { IfOk result (λ t. t ≡ interface_table start interface.now) }
{
    let names = NameTable::new(alloc, attr_names(alloc, interface.attrs.as_slice())?)?;
    Ok(InterfaceTable { start, names })
}

#[tactic(auto, using(ftl_meaning::proofs::faults::Numbered::numbered_steps))]
fn class_tables(
    alloc: Global,
    grammar: &Grammar,
    names: &NameTable,
) -> Result<Items<ClassTable>, AllocError>
    requires small { HasSmallCounts grammar.now }
    requires names { names.now ≡ interface_names grammar.now ++ class_names grammar.now }
    requires start { IsSmall (shared_count grammar.now.interfaces) }
    ensures tables { IfOk result (λ t. t
        ≡ map (class_entry grammar.now) (numbered 0 grammar.now.classes)) }
{
    let mut tables = Items::new(alloc);
    let mut start = shared(grammar.interfaces.as_slice()) as u32;
    for class in grammar.classes.as_slice() {
        tables.push(one_class(alloc, grammar, names, class, start)?)?;
        start += class.attrs.len() as u32;
    }
    Ok(tables)
}

fn one_class(
    alloc: Global,
    grammar: &Grammar,
    names: &NameTable,
    class: &Class,
    start: u32,
) -> Result<ClassTable, AllocError>
    requires interfaces { IsSmall (length grammar.now.interfaces) }
    requires names { names.now ≡ interface_names grammar.now ++ class_names grammar.now }
    requires attrs { IsSmall (length class.now.attrs) }
    requires children { IsSmall (length class.now.children) }
    ensures table { IfOk result (λ t. t ≡ class_table grammar.now start class.now) }
{
    let children = class.children.as_slice();
    Ok(ClassTable {
        interface: interface_number(grammar, names, &class.interface),
        start,
        own: NameTable::new(alloc, attr_names(alloc, class.attrs.as_slice())?)?,
        child_names: NameTable::new(alloc, child_names(alloc, children)?)?,
        children: child_infos(alloc, grammar, names, children)?,
    })
}

fn child_infos(
    alloc: Global,
    grammar: &Grammar,
    names: &NameTable,
    children: &[Child],
) -> Result<Items<ChildInfo>, AllocError>
    requires interfaces { IsSmall (length grammar.now.interfaces) }
    requires names { names.now ≡ interface_names grammar.now ++ class_names grammar.now }
    ensures infos { IfOk result (λ t. t ≡ map (child_info grammar.now) children.now) }
{
    let mut infos = Items::new(alloc);
    for child in children {
        infos.push(ChildInfo {
            interface: interface_number(grammar, names, &child.interface),
            many: child.many,
        })?;
    }
    Ok(infos)
}

/// The number of the interface of this name, or how many there are where there is none.
pub fn interface_number(grammar: &Grammar, names: &NameTable, name: &Name) -> u32
    requires interfaces { IsSmall (length grammar.now.interfaces) }
    requires names { names.now ≡ interface_names grammar.now ++ class_names grammar.now }
    ensures number { result ≡ interface_number grammar.now name.now }
{
    interface_named(grammar, names, name.text())
}

/// The same of a name's text.
pub fn interface_named(grammar: &Grammar, names: &NameTable, name: &str) -> u32
    requires interfaces { IsSmall (length grammar.now.interfaces) }
    requires names { names.now ≡ interface_names grammar.now ++ class_names grammar.now }
    ensures number { result ≡ interface_number grammar.now name.now }
{
    let count = grammar.interfaces.len() as u32;
    place_below(names.place(name), count)
}

/// The place, where it is below the count, and else the count.
fn place_below(place: Option<u32>, count: u32) -> u32
    ensures place { result
        ≡ option_map_or (λ n. if nat_lt n count then n else count) place count }
{
    match place {
        Some(place) if place < count => place,
        _ => count,
    }
}

/// How many attributes the interfaces have.
#[tactic(auto, using(ftl_meaning::proofs::faults::Counting::count_steps))]
pub fn shared(interfaces: &[Interface]) -> usize
    requires small { IsSmall (shared_count interfaces.now) }
    ensures count { result ≡ shared_count interfaces.now }
{
    let mut count = 0;
    for interface in interfaces {
        count += interface.attrs.len();
    }
    count
}
