//! The conditions on names.
ghost use Rattle.std.specs.Prelude.{◌≡◌, ◌++◌, [], ◌∷◌, ◌<◌, ◌≤◌, None, false, length, nat_lt};
ghost use Rattle.std.specs.Prelude.{not, take, IfOk};
ghost use Rattle.std.specs.List.{list_any};
ghost use Rattle.std.specs.Option.{option_map, option_map_or};
ghost use Rattle.ftl_meaning.specs.faults.Counts.{HasSmallCounts};
ghost use Rattle.ftl_meaning.specs.faults.Finds.{Finds};
ghost use Rattle.ftl_meaning.specs.faults.FirstFault.{fault_if, first_of, first_there};
ghost use Rattle.ftl_meaning.specs.faults.FirstFault.{name_fault, root_inherits, second_name};
ghost use Rattle.ftl_meaning.specs.faults.FirstFault.{twice_among};
ghost use Rattle.ftl_checked.specs.declarations.NameFaults.{class_once_fault, classes_fault};
ghost use Rattle.ftl_checked.specs.declarations.NameFaults.{interfaces_fault};
ghost use Rattle.ftl_checked.specs.declarations.NameFaults.{once_fault};
ghost use Rattle.ftl_checked.specs.declarations.NameFaults.{kid_interface_fault, shown_fault};
ghost use Rattle.ftl_checked.specs.declarations.NameFaults.{unknown_fault};
ghost use Rattle.ftl_meaning.specs.faults.Numbering.{class_names, interface_at, interface_names};
ghost use Rattle.ftl_meaning.specs.faults.Numbering.{is_among};
ghost use Rattle.ftl_meaning.specs.faults.RuleForms.{is_inherited};
ghost use Rattle.ftl_checked.specs.lookup.Tables.{tables_of};
ghost use Rattle.ftl_meaning.specs.declared.faults.fault.GrammarFault.TheVariants as fault;

use crate::lookup::{
    Tables, class_table, copies, inherits, interface, interface_number, interface_table, is_in,
    stands_before,
};
use crate::names::NameTable;
use ftl_grammar::{AttrDecl, Child, Class, Grammar};
use ftl_meaning::GrammarFault;
use ftl_tokens::Name;
use sqlite_items::Items;
use std::alloc::Global;

/// Looks at names: those that stand twice, those that stand for nothing, and the root's interface.
pub fn names_stand(alloc: Global, grammar: &Grammar, tables: &Tables) -> Result<(), GrammarFault>
    requires small { HasSmallCounts grammar.now }
    requires tables { tables.now ≡ tables_of grammar.now }
    ensures finds { Finds (name_fault grammar.now) result }
{
    names_in_turn(alloc, grammar, tables)
}

fn names_in_turn(alloc: Global, grammar: &Grammar, tables: &Tables) -> Result<(), GrammarFault>
    requires small { HasSmallCounts grammar.now }
    requires tables { tables.now ≡ tables_of grammar.now }
    ensures finds { Finds (first_there (
        twice_among (interface_names grammar.now ++ class_names grammar.now)
        ∷ fault_if (not (is_among (interface_names grammar.now) grammar.now.root))
        (fault.RootMissing grammar.now.root)
        ∷ first_of shown_fault grammar.now.interfaces
        ∷ first_of (interfaces_fault grammar.now) grammar.now.classes
        ∷ first_of once_fault grammar.now.interfaces
        ∷ classes_fault grammar.now 0 grammar.now.classes
        ∷ fault_if (root_inherits grammar.now) (fault.RootInherits grammar.now.root) ∷ []))
        result }
{
    no_twice(&tables.names)?;
    root_known(grammar, tables)?;
    all_shown_known(grammar, tables)?;
    all_interfaces_known(grammar, tables)?;
    interfaces_once(alloc, grammar, tables)?;
    let none = NameTable::new(alloc, Items::new(alloc))?;
    classes_once(grammar, tables, &none)?;
    root_stands(grammar, tables)
}

/// Looks for a name that stands before, and gives the first at its second place.
#[tactic(auto, using(crate::proofs::lookup::Seconds::second_steps))]
fn no_twice(table: &NameTable) -> Result<(), GrammarFault>
    ensures finds { Finds (twice_among table.now) result }
{
    for (place, name) in table.names().iter().enumerate() {
        if stands_before(table, name, place) {
            return Err(GrammarFault::TwiceNamed { name: name.copy()? });
        }
    }
    Ok(())
}

fn root_known(grammar: &Grammar, tables: &Tables) -> Result<(), GrammarFault>
    requires small { HasSmallCounts grammar.now }
    requires tables { tables.now ≡ tables_of grammar.now }
    ensures finds { Finds (fault_if (not (is_among (interface_names grammar.now)
        grammar.now.root)) (fault.RootMissing grammar.now.root)) result }
{
    if !is_interface(grammar, tables, &grammar.root) {
        return Err(GrammarFault::RootMissing {
            name: grammar.root.copy()?,
        });
    }
    Ok(())
}

fn is_interface(grammar: &Grammar, tables: &Tables, name: &Name) -> bool
    requires small { HasSmallCounts grammar.now }
    requires tables { tables.now ≡ tables_of grammar.now }
    ensures known { result ≡ is_among (interface_names grammar.now) name.now }
{
    (interface_number(grammar, &tables.names, name) as usize) < grammar.interfaces.len()
}

#[tactic(auto, using(ftl_meaning::proofs::faults::First::first_steps))]
fn all_shown_known(grammar: &Grammar, tables: &Tables) -> Result<(), GrammarFault>
    requires small { HasSmallCounts grammar.now }
    requires tables { tables.now ≡ tables_of grammar.now }
    ensures finds { Finds (first_of shown_fault grammar.now.interfaces) result }
{
    for number in 0..grammar.interfaces.len() as u32 {
        shown_known(grammar, tables, number)?;
    }
    Ok(())
}

#[tactic(auto, unfolding(crate::specs::declarations::NameFaults::shown_fault))]
fn shown_known(grammar: &Grammar, tables: &Tables, number: u32) -> Result<(), GrammarFault>
    requires tables { tables.now ≡ tables_of grammar.now }
    requires within { number < length grammar.now.interfaces }
    ensures finds { Finds (shown_fault (interface_at grammar.now number)) result }
{
    let names = &interface_table(grammar, tables, number).names;
    all_known(names, interface(grammar, number).shown.as_slice())
}

#[tactic(auto, using(ftl_meaning::proofs::faults::First::first_steps))]
fn all_known(table: &NameTable, names: &[Name]) -> Result<(), GrammarFault>
    ensures finds { Finds (first_of (unknown_fault table.now) names.now) result }
{
    for name in names {
        known(table, name)?;
    }
    Ok(())
}

#[tactic(auto, unfolding(crate::specs::declarations::NameFaults::unknown_fault))]
fn known(table: &NameTable, name: &Name) -> Result<(), GrammarFault>
    ensures finds { Finds (unknown_fault table.now name.now) result }
{
    if !is_in(table, name) {
        return Err(GrammarFault::UnknownName { name: name.copy()? });
    }
    Ok(())
}

#[tactic(auto, using(ftl_meaning::proofs::faults::First::first_steps))]
fn all_interfaces_known(grammar: &Grammar, tables: &Tables) -> Result<(), GrammarFault>
    requires small { HasSmallCounts grammar.now }
    requires tables { tables.now ≡ tables_of grammar.now }
    ensures finds { Finds (first_of (interfaces_fault grammar.now) grammar.now.classes) result }
{
    for class in grammar.classes.as_slice() {
        interfaces_known(grammar, tables, class)?;
    }
    Ok(())
}

#[tactic(auto, unfolding(crate::specs::declarations::NameFaults::interfaces_fault))]
fn interfaces_known(grammar: &Grammar, tables: &Tables, class: &Class) -> Result<(), GrammarFault>
    requires small { HasSmallCounts grammar.now }
    requires tables { tables.now ≡ tables_of grammar.now }
    ensures finds { Finds (interfaces_fault grammar.now class.now) result }
{
    interface_known(grammar, tables, &class.interface)?;
    kid_interfaces_known(grammar, tables, class.children.as_slice())
}

#[tactic(auto, using(ftl_meaning::proofs::faults::First::first_steps))]
fn kid_interfaces_known(
    grammar: &Grammar,
    tables: &Tables,
    children: &[Child],
) -> Result<(), GrammarFault>
    requires small { HasSmallCounts grammar.now }
    requires tables { tables.now ≡ tables_of grammar.now }
    ensures finds { Finds (first_of (kid_interface_fault grammar.now) children.now) result }
{
    for child in children {
        kid_interface_known(grammar, tables, child)?;
    }
    Ok(())
}

#[tactic(auto, unfolding(crate::specs::declarations::NameFaults::kid_interface_fault))]
fn kid_interface_known(
    grammar: &Grammar,
    tables: &Tables,
    child: &Child,
) -> Result<(), GrammarFault>
    requires small { HasSmallCounts grammar.now }
    requires tables { tables.now ≡ tables_of grammar.now }
    ensures finds { Finds (kid_interface_fault grammar.now child.now) result }
{
    interface_known(grammar, tables, &child.interface)
}

#[tactic(auto, unfolding(crate::specs::declarations::NameFaults::unknown_fault))]
fn interface_known(grammar: &Grammar, tables: &Tables, name: &Name) -> Result<(), GrammarFault>
    requires small { HasSmallCounts grammar.now }
    requires tables { tables.now ≡ tables_of grammar.now }
    ensures finds { Finds (unknown_fault (interface_names grammar.now) name.now) result }
{
    if !is_interface(grammar, tables, name) {
        return Err(GrammarFault::UnknownName { name: name.copy()? });
    }
    Ok(())
}

#[tactic(auto, using(ftl_meaning::proofs::faults::First::first_steps))]
fn interfaces_once(alloc: Global, grammar: &Grammar, tables: &Tables) -> Result<(), GrammarFault>
    requires small { HasSmallCounts grammar.now }
    requires tables { tables.now ≡ tables_of grammar.now }
    ensures finds { Finds (first_of once_fault grammar.now.interfaces) result }
{
    for number in 0..grammar.interfaces.len() as u32 {
        interface_once(alloc, grammar, tables, number)?;
    }
    Ok(())
}

#[tactic(auto, unfolding(crate::specs::declarations::NameFaults::once_fault))]
fn interface_once(
    alloc: Global,
    grammar: &Grammar,
    tables: &Tables,
    number: u32,
) -> Result<(), GrammarFault>
    requires small { HasSmallCounts grammar.now }
    requires tables { tables.now ≡ tables_of grammar.now }
    requires within { number < length grammar.now.interfaces }
    ensures finds { Finds (once_fault (interface_at grammar.now number)) result }
{
    no_twice(&interface_table(grammar, tables, number).names)?;
    let shown = copies(alloc, interface(grammar, number).shown.as_slice())?;
    no_twice(&NameTable::new(alloc, shown)?)
}

#[tactic(auto, using(crate::proofs::declarations::NameLists::once_steps))]
fn classes_once(grammar: &Grammar, tables: &Tables, none: &NameTable) -> Result<(), GrammarFault>
    requires small { HasSmallCounts grammar.now }
    requires tables { tables.now ≡ tables_of grammar.now }
    requires none { none.now ≡ [] }
    requires known { first_of (interfaces_fault grammar.now) grammar.now.classes ≡ None }
    requires once { first_of once_fault grammar.now.interfaces ≡ None }
    ensures finds { Finds (classes_fault grammar.now 0 grammar.now.classes) result }
{
    for number in 0..grammar.classes.len() as u32 {
        class_once(grammar, tables, number, none)?;
    }
    Ok(())
}

fn class_once(
    grammar: &Grammar,
    tables: &Tables,
    number: u32,
    none: &NameTable,
) -> Result<(), GrammarFault>
    requires small { HasSmallCounts grammar.now }
    requires tables { tables.now ≡ tables_of grammar.now }
    requires within { number < length grammar.now.classes }
    requires none { none.now ≡ [] }
    requires known { first_of (interfaces_fault grammar.now) grammar.now.classes ≡ None }
    requires once { first_of once_fault grammar.now.interfaces ≡ None }
    ensures finds { Finds (class_once_fault grammar.now number) result }
{
    let table = class_table(grammar, tables, number);
    let shared = &interface_table(grammar, tables, table.interface).names;
    fields_once(shared, &table.own, &table.child_names, none)
}

fn fields_once(
    shared: &NameTable,
    own: &NameTable,
    children: &NameTable,
    none: &NameTable,
) -> Result<(), GrammarFault>
    requires shared { second_name [] shared.now ≡ None }
    requires none { none.now ≡ [] }
    ensures finds { Finds (twice_among ((shared.now ++ own.now) ++ children.now)) result }
{
    fields_in_turn(shared, own, children, none)
}

fn fields_in_turn(
    shared: &NameTable,
    own: &NameTable,
    children: &NameTable,
    none: &NameTable,
) -> Result<(), GrammarFault>
    ensures finds { Finds (first_there (
        option_map fault.TwiceNamed (second_name (shared.now ++ none.now) own.now)
        ∷ option_map fault.TwiceNamed (second_name (shared.now ++ own.now) children.now) ∷ []))
        result }
{
    once_after(shared, none, own)?;
    once_after(shared, own, children)
}

/// Looks for a name that stands before, in one of two other tables or in this one.
#[tactic(auto, using(crate::proofs::lookup::Seconds::after_steps))]
fn once_after(first: &NameTable, then: &NameTable, table: &NameTable) -> Result<(), GrammarFault>
    ensures finds { Finds (option_map fault.TwiceNamed
        (second_name (first.now ++ then.now) table.now)) result }
{
    for (place, name) in table.names().iter().enumerate() {
        if is_in(first, name) || is_in(then, name) || stands_before(table, name, place) {
            return Err(GrammarFault::TwiceNamed { name: name.copy()? });
        }
    }
    Ok(())
}

fn root_stands(grammar: &Grammar, tables: &Tables) -> Result<(), GrammarFault>
    requires small { HasSmallCounts grammar.now }
    requires tables { tables.now ≡ tables_of grammar.now }
    ensures finds { Finds (fault_if (root_inherits grammar.now)
        (fault.RootInherits grammar.now.root)) result }
{
    let number = interface_number(grammar, &tables.names, &grammar.root);
    if (number as usize) < grammar.interfaces.len()
        && any_inherits(interface(grammar, number).attrs.as_slice())
    {
        return Err(GrammarFault::RootInherits {
            name: grammar.root.copy()?,
        });
    }
    Ok(())
}

fn any_inherits(attrs: &[AttrDecl]) -> bool
    ensures any { result ≡ list_any (λ a. is_inherited a.kind) attrs.now }
{
    for attr in attrs {
        if inherits(attr.kind) {
            return true;
        }
    }
    false
}
