//! Interfaces, classes and whole grammars.

ghost use Rattle.std.specs.Prelude.{[]};
ghost use Rattle.ftl_tokens.specs.reading.Reader.{Reads, push, chain_of, until_of};
ghost use Rattle.ftl_grammar.specs.syntax.GrammarReading as spec;
ghost use Rattle.ftl_grammar.specs.syntax.InterfaceReading as interfaces;

use crate::reading::attrs::{attrs, own_attrs, shown};
use crate::reading::rules::{child_rule, rules};
use crate::syntax::{
    Child, ChildList, Class, ClassList, Declaration, Grammar, Interface, InterfaceList, Rule,
};
use ftl_tokens::{ChainItem, Input, Kind, Name, ReadFault};
use sqlite_items::Items;
use std::alloc::Global;

// The rest of an interface, after `interface`.
#[tactic(auto, unfolding(crate::specs::syntax::InterfaceReading::interface))]
fn interface(alloc: Global, input: &mut Input<'_>) -> Result<Interface, ReadFault>
    ensures reads { Reads (interfaces.interface input.old) result input.new }
{
    let name = input.name(alloc)?;
    input.expect(Kind::LeftBrace)?;
    let attrs = attrs(alloc, input)?;
    let shown = shown(alloc, input)?;
    input.expect(Kind::RightBrace)?;
    Ok(Interface { name, attrs, shown })
}

// The interface of a list child, after `:` and `[`.
#[tactic(auto, unfolding(crate::specs::syntax::InterfaceReading::list_child))]
fn list_child(alloc: Global, input: &mut Input<'_>, name: Name) -> Result<Child, ReadFault>
    ensures reads { Reads (interfaces.list_child name input.old) result input.new }
{
    let interface = input.name(alloc)?;
    input.expect(Kind::RightBracket)?;
    input.expect(Kind::Semicolon)?;
    Ok(Child {
        name,
        interface,
        many: true,
    })
}

// The interface of a single child, after `:`.
#[tactic(auto, unfolding(crate::specs::syntax::InterfaceReading::single_child))]
fn single_child(alloc: Global, input: &mut Input<'_>, name: Name) -> Result<Child, ReadFault>
    ensures reads { Reads (interfaces.single_child name input.old) result input.new }
{
    let interface = input.name(alloc)?;
    input.expect(Kind::Semicolon)?;
    Ok(Child {
        name,
        interface,
        many: false,
    })
}

#[tactic(auto, unfolding(crate::specs::syntax::InterfaceReading::child))]
fn child(alloc: Global, input: &mut Input<'_>, name: Name) -> Result<Child, ReadFault>
    ensures reads { Reads (interfaces.child name input.old) result input.new }
{
    match input.peek() {
        Some(Kind::LeftBracket) => {
            input.skip();
            list_child(alloc, input, name)
        }
        _ => single_child(alloc, input, name),
    }
}

// A child or a rule for one, by what stands after the child's name.
#[tactic(auto, unfolding(crate::specs::syntax::GrammarReading::named))]
fn named(
    alloc: Global,
    input: &mut Input<'_>,
    name: Name,
) -> Result<ChainItem<Child, Rule>, ReadFault>
    ensures reads { Reads (spec.named spec.any_expr name input.old) result input.new }
{
    match input.peek() {
        Some(Kind::Colon) => {
            input.skip();
            Ok(ChainItem::Next(child(alloc, input, name)?))
        }
        _ => Ok(ChainItem::Last(child_rule(alloc, input, name)?)),
    }
}

// One more child, or the first rule if it is a child's.
#[tactic(auto, unfolding(crate::specs::syntax::GrammarReading::member))]
fn member(alloc: Global, input: &mut Input<'_>) -> Result<ChainItem<Child, Rule>, ReadFault>
    ensures reads { Reads (spec.member spec.any_expr input.old) result input.new }
{
    match input.peek() {
        Some(Kind::Name) => {
            let name = input.name(alloc)?;
            named(alloc, input, name)
        }
        _ => Ok(ChainItem::Stop),
    }
}

// The children of a class, and the rule that ended them, if it was a child's.
fn children(alloc: Global, input: &mut Input<'_>) -> Result<(ChildList, Option<Rule>), ReadFault>
    ensures reads { Reads (until_of push (spec.member spec.any_expr) [] input.old)
        result input.new }
{
    let mut found = Items::new(alloc);
    for _turn in 0..input.left() {
        match member(alloc, input)? {
            ChainItem::Stop => return Ok((found, None)),
            ChainItem::Next(child) => found.push(child)?,
            ChainItem::Last(rule) => return Ok((found, Some(rule))),
        }
    }
    Ok((found, None))
}

// The rest of a class, after `class`.
#[tactic(auto, unfolding(crate::specs::syntax::GrammarReading::class))]
fn class(alloc: Global, input: &mut Input<'_>) -> Result<Class, ReadFault>
    ensures reads { Reads (spec.class spec.any_expr input.old) result input.new }
{
    let name = input.name(alloc)?;
    input.expect(Kind::Colon)?;
    let interface = input.name(alloc)?;
    input.expect(Kind::LeftBrace)?;
    let attrs = own_attrs(alloc, input)?;
    let (children, first) = children(alloc, input)?;
    let rules = rules(alloc, input, first)?;
    input.expect(Kind::RightBrace)?;
    Ok(Class {
        name,
        interface,
        attrs,
        children,
        rules,
    })
}

// One more interface or class, if there is one.
#[tactic(auto, unfolding(crate::specs::syntax::GrammarReading::declaration))]
fn declaration(alloc: Global, input: &mut Input<'_>) -> Result<Option<Declaration>, ReadFault>
    ensures reads { Reads (spec.declaration spec.any_expr input.old) result input.new }
{
    match input.peek() {
        Some(Kind::Interface) => {
            input.skip();
            Ok(Some(Declaration::Interface(interface(alloc, input)?)))
        }
        Some(Kind::Class) => {
            input.skip();
            Ok(Some(Declaration::Class(class(alloc, input)?)))
        }
        _ => Ok(None),
    }
}

// The interfaces and the classes, each in their order.
fn declarations(
    alloc: Global,
    input: &mut Input<'_>,
) -> Result<(InterfaceList, ClassList), ReadFault>
    ensures reads { Reads (chain_of spec.add_declaration (spec.declaration spec.any_expr) ([], [])
        input.old) result input.new }
{
    let mut interfaces = Items::new(alloc);
    let mut classes = Items::new(alloc);
    for _turn in 0..input.left() {
        let Some(item) = declaration(alloc, input)? else {
            return Ok((interfaces, classes));
        };
        match item {
            Declaration::Interface(interface) => interfaces.push(interface)?,
            Declaration::Class(class) => classes.push(class)?,
        }
    }
    Ok((interfaces, classes))
}

/// A grammar, to the end of the text.
#[tactic(auto, unfolding(crate::specs::syntax::GrammarReading::grammar))]
pub fn grammar(alloc: Global, input: &mut Input<'_>) -> Result<Grammar, ReadFault>
    ensures reads { Reads (spec.grammar input.old) result input.new }
{
    grammar_level(alloc, input)
}

#[tactic(auto, unfolding(crate::specs::syntax::GrammarReading::grammar_level))]
fn grammar_level(alloc: Global, input: &mut Input<'_>) -> Result<Grammar, ReadFault>
    ensures reads { Reads (spec.grammar_level spec.any_expr input.old) result input.new }
{
    input.expect(Kind::Root)?;
    let root = input.name(alloc)?;
    input.expect(Kind::Semicolon)?;
    let (interfaces, classes) = declarations(alloc, input)?;
    input.end()?;
    Ok(Grammar {
        root,
        interfaces,
        classes,
    })
}
