//! Lists of names, and the attributes that they declare.

ghost use Rattle.std.specs.Prelude.{◌≡◌, [], ◌∷◌, map, IfOk};
ghost use Rattle.ftl_tokens.specs.reading.Reader.{Reads, push, chain_of};
ghost use Rattle.ftl_grammar.specs.syntax.Trees.{attr_decl};
ghost use Rattle.ftl_grammar.specs.syntax.InterfaceReading as spec;
ghost use Rattle.ftl_grammar.specs.syntax.InterfaceReading.{append};
ghost use Rattle.ftl_grammar.specs.reading.View.{ReadsAs};

use crate::syntax::{AttrDecl, AttrDecls, AttrKind, NameList};
use ftl_tokens::{Input, Kind, Name, ReadFault};
use sqlite_items::Items;
use std::alloc::{AllocError, Global};

// `,` and one more name, if they are there.
#[tactic(auto, unfolding(crate::specs::syntax::InterfaceReading::comma_name))]
fn comma_name(alloc: Global, input: &mut Input<'_>) -> Result<Option<Name>, ReadFault>
    ensures reads { Reads (spec.comma_name input.old) result input.new }
{
    match input.peek() {
        Some(Kind::Comma) => {
            input.skip();
            Ok(Some(input.name(alloc)?))
        }
        _ => Ok(None),
    }
}

// The names of a list, of which the first was read.
fn more_names(alloc: Global, input: &mut Input<'_>, first: Name) -> Result<Vec<Name>, ReadFault>
    ensures reads { ReadsAs (λ v. v.items) (chain_of push spec.comma_name (first ∷ []) input.old)
        result input.new }
{
    let mut found = Vec::new(alloc);
    found.push(first)?;
    for _turn in 0..input.left() {
        let Some(item) = comma_name(alloc, input)? else {
            return Ok(found);
        };
        found.push(item)?;
    }
    Ok(found)
}

#[tactic(auto, unfolding(crate::specs::syntax::InterfaceReading::names))]
fn names(alloc: Global, input: &mut Input<'_>) -> Result<Vec<Name>, ReadFault>
    ensures reads { ReadsAs (λ v. v.items) (spec.names input.old) result input.new }
{
    let first = input.name(alloc)?;
    more_names(alloc, input, first)
}

// Names and `;`.
#[tactic(auto, unfolding(crate::specs::syntax::InterfaceReading::name_line))]
fn name_line(alloc: Global, input: &mut Input<'_>) -> Result<Vec<Name>, ReadFault>
    ensures reads { ReadsAs (λ v. v.items) (spec.name_line input.old) result input.new }
{
    let found = names(alloc, input)?;
    input.expect(Kind::Semicolon)?;
    Ok(found)
}

// An attribute of this kind for each name.
fn decls_of(alloc: Global, kind: AttrKind, names: Vec<Name>) -> Result<AttrDecls, AllocError>
    ensures declarations { IfOk result (λ xs. xs ≡ map (attr_decl kind) names.items) }
{
    let mut found = Items::new(alloc);
    for name in names {
        found.push(AttrDecl { kind, name })?;
    }
    Ok(found)
}

// Names and `;`, after the word of this kind.
#[tactic(auto, unfolding(crate::specs::syntax::InterfaceReading::attr_group))]
fn attr_group(
    alloc: Global,
    input: &mut Input<'_>,
    kind: AttrKind,
) -> Result<Option<AttrDecls>, ReadFault>
    ensures reads { Reads (spec.attr_group kind input.old) result input.new }
{
    let names = name_line(alloc, input)?;
    Ok(Some(decls_of(alloc, kind, names)?))
}

// One more group of attributes of an interface, if there is one.
#[tactic(auto, unfolding(crate::specs::syntax::InterfaceReading::attrs))]
fn group_of_interface(alloc: Global, input: &mut Input<'_>) -> Result<Option<AttrDecls>, ReadFault>
    ensures reads { Reads (spec.attrs input.old) result input.new }
{
    let kind = match input.peek() {
        Some(Kind::Inh) => AttrKind::Inh,
        Some(Kind::Syn) => AttrKind::Syn,
        Some(Kind::Input) => AttrKind::Input,
        _ => return Ok(None),
    };
    input.skip();
    attr_group(alloc, input, kind)
}

// One more group of a class's own attributes, if there is one.
#[tactic(auto, unfolding(crate::specs::syntax::InterfaceReading::own_attrs))]
fn group_of_class(alloc: Global, input: &mut Input<'_>) -> Result<Option<AttrDecls>, ReadFault>
    ensures reads { Reads (spec.own_attrs input.old) result input.new }
{
    let kind = match input.peek() {
        Some(Kind::Input) => AttrKind::Input,
        Some(Kind::Local) => AttrKind::Local,
        _ => return Ok(None),
    };
    input.skip();
    attr_group(alloc, input, kind)
}

/// The attributes of an interface.
pub fn attrs(alloc: Global, input: &mut Input<'_>) -> Result<AttrDecls, ReadFault>
    ensures reads { Reads (chain_of append spec.attrs [] input.old) result input.new }
{
    let mut found = Items::new(alloc);
    for _turn in 0..input.left() {
        let Some(group) = group_of_interface(alloc, input)? else {
            return Ok(found);
        };
        found.append(group)?;
    }
    Ok(found)
}

/// The own attributes of a class.
pub fn own_attrs(alloc: Global, input: &mut Input<'_>) -> Result<AttrDecls, ReadFault>
    ensures reads { Reads (chain_of append spec.own_attrs [] input.old) result input.new }
{
    let mut found = Items::new(alloc);
    for _turn in 0..input.left() {
        let Some(group) = group_of_class(alloc, input)? else {
            return Ok(found);
        };
        found.append(group)?;
    }
    Ok(found)
}

/// The names after `show`, if it is there.
#[tactic(auto, unfolding(crate::specs::syntax::InterfaceReading::shown))]
pub fn shown(alloc: Global, input: &mut Input<'_>) -> Result<NameList, ReadFault>
    ensures reads { Reads (spec.shown input.old) result input.new }
{
    match input.peek() {
        Some(Kind::Show) => {
            input.skip();
            Ok(Items::from_vec(name_line(alloc, input)?))
        }
        _ => Ok(Items::new(alloc)),
    }
}
