//! Rules.

ghost use Rattle.std.specs.Prelude.{◌≡◌, [], IfOk};
ghost use Rattle.ftl_tokens.specs.reading.Reader.{Reads, push, chain_of};
ghost use Rattle.ftl_grammar.specs.syntax.GrammarReading as spec;

use crate::expressions::{dot_name, expr};
use crate::syntax::{Body, Expr, Rule, RuleList, Target};
use ftl_tokens::{Input, Kind, Name, ReadFault};
use sqlite_items::Items;
use std::alloc::{AllocError, Global};

// One level of brackets more than may be open: where no more are, the last level is never read.
const DEPTH: usize = 65;

fn any_expr(alloc: Global, input: &mut Input<'_>) -> Result<Expr, ReadFault>
    ensures reads { Reads (spec.any_expr input.old) result input.new }
{
    expr(alloc, input, DEPTH)
}

// The rest of a fold, after `fold`.
#[tactic(auto, unfolding(crate::specs::syntax::GrammarReading::fold))]
fn fold(alloc: Global, input: &mut Input<'_>) -> Result<Body, ReadFault>
    ensures reads { Reads (spec.fold spec.any_expr input.old) result input.new }
{
    let child = input.name(alloc)?;
    input.expect(Kind::From)?;
    let first = any_expr(alloc, input)?;
    input.expect(Kind::With)?;
    let next = any_expr(alloc, input)?;
    Ok(Body::Fold(child, first, next))
}

#[tactic(auto, unfolding(crate::specs::syntax::GrammarReading::own_body))]
fn own_body(alloc: Global, input: &mut Input<'_>) -> Result<Body, ReadFault>
    ensures reads { Reads (spec.own_body spec.any_expr input.old) result input.new }
{
    match input.peek() {
        Some(Kind::Fold) => {
            input.skip();
            fold(alloc, input)
        }
        _ => Ok(Body::Plain(any_expr(alloc, input)?)),
    }
}

// Two expressions with `then` between them, after `first`.
#[tactic(auto, unfolding(crate::specs::syntax::GrammarReading::first_then))]
fn first_then(alloc: Global, input: &mut Input<'_>) -> Result<Body, ReadFault>
    ensures reads { Reads (spec.first_then spec.any_expr input.old) result input.new }
{
    let first = any_expr(alloc, input)?;
    input.expect(Kind::Then)?;
    let later = any_expr(alloc, input)?;
    Ok(Body::FirstThen(first, later))
}

#[tactic(auto, unfolding(crate::specs::syntax::GrammarReading::child_body))]
fn child_body(alloc: Global, input: &mut Input<'_>) -> Result<Body, ReadFault>
    ensures reads { Reads (spec.child_body spec.any_expr input.old) result input.new }
{
    match input.peek() {
        Some(Kind::First) => {
            input.skip();
            first_then(alloc, input)
        }
        _ => Ok(Body::Plain(any_expr(alloc, input)?)),
    }
}

// The rest of a rule for the node itself, after `self`.
#[tactic(auto, unfolding(crate::specs::syntax::GrammarReading::own_rule))]
fn own_rule(alloc: Global, input: &mut Input<'_>) -> Result<Rule, ReadFault>
    ensures reads { Reads (spec.own_rule spec.any_expr input.old) result input.new }
{
    let attr = dot_name(alloc, input)?;
    input.expect(Kind::Assign)?;
    let body = own_body(alloc, input)?;
    input.expect(Kind::Semicolon)?;
    Ok(Rule {
        target: Target::Own(attr),
        body,
    })
}

/// The rest of a rule for a child, after the child's name.
#[tactic(auto, unfolding(crate::specs::syntax::GrammarReading::child_rule))]
pub fn child_rule(alloc: Global, input: &mut Input<'_>, child: Name) -> Result<Rule, ReadFault>
    ensures reads { Reads (spec.child_rule spec.any_expr child input.old) result input.new }
{
    let attr = dot_name(alloc, input)?;
    input.expect(Kind::Assign)?;
    let body = child_body(alloc, input)?;
    input.expect(Kind::Semicolon)?;
    Ok(Rule {
        target: Target::Of(child, attr),
        body,
    })
}

// One more rule, if there is one.
#[tactic(auto, unfolding(crate::specs::syntax::GrammarReading::rule))]
fn rule(alloc: Global, input: &mut Input<'_>) -> Result<Option<Rule>, ReadFault>
    ensures reads { Reads (spec.rule spec.any_expr input.old) result input.new }
{
    match input.peek() {
        Some(Kind::SelfWord) => {
            input.skip();
            Ok(Some(own_rule(alloc, input)?))
        }
        Some(Kind::Name) => {
            let child = input.name(alloc)?;
            Ok(Some(child_rule(alloc, input, child)?))
        }
        _ => Ok(None),
    }
}

/// The rules of a class, of which the first may have been read.
pub fn rules(
    alloc: Global,
    input: &mut Input<'_>,
    first: Option<Rule>,
) -> Result<RuleList, ReadFault>
    ensures reads { Reads (chain_of push (spec.rule spec.any_expr) (spec.list_of first) input.old)
        result input.new }
{
    let mut found = list_of(alloc, first)?;
    for _turn in 0..input.left() {
        let Some(item) = rule(alloc, input)? else {
            return Ok(found);
        };
        found.push(item)?;
    }
    Ok(found)
}

fn list_of(alloc: Global, first: Option<Rule>) -> Result<RuleList, AllocError>
    ensures list { IfOk result (λ found. found ≡ spec.list_of first) }
{
    let mut found = Items::new(alloc);
    if let Some(rule) = first {
        found.push(rule)?;
    }
    Ok(found)
}
