//! Rules with their expressions flattened, once for all that is asked of their reads.
ghost use Rattle.std.specs.Prelude.{◌≡◌, IfOk};
ghost use Rattle.ftl_meaning.specs.formulas.Expressions.{formula_of};
ghost use Rattle.ftl_meaning.specs.formulas.Formula.{reads_of};
ghost use Rattle.ftl_checked.specs.declarations.FlatRules.{body_in, rule_in};

use ftl_grammar::{Body, Expr, Rule, Target};
use ftl_meaning::{ReadRef, reads};
use ftl_tokens::Name;
use std::alloc::{AllocError, Global};
use std::marker::Model;

/// An expression with what it reads. Contracts see the expression.
#[derive(Drop)]
pub struct FlatExpr<'a> {
    expr: &'a Expr,
    reads: Vec<ReadRef<'a>>,
}

impl<'a> Model for FlatExpr<'a> {
    ghost use Rattle.std.specs.Prelude.{◌≡◌};
    ghost use Rattle.ftl_grammar.specs.contracts.syntax.expression.Expr as e;
    ghost use Rattle.ftl_grammar.specs.declared.syntax.expression.Expr.{Expr};
    ghost use Rattle.ftl_meaning.specs.formulas.Expressions.{formula_of};
    ghost use Rattle.ftl_meaning.specs.formulas.Formula.{reads_of};

    ghost Value = { Expr };

    ghost coded = { e.the_row.coded };

    ghost view = { λ f. f.expr.now };

    ghost invariant = { λ f. f.reads.items ≡ reads_of (formula_of f.expr.now) };
}

impl<'a> FlatExpr<'a> {
    pub(crate) fn new(alloc: Global, expr: &'a Expr) -> Result<FlatExpr<'a>, AllocError>
        ensures expr { IfOk result (λ flat. flat ≡ expr.now) }
    {
        let reads = reads(alloc, expr)?;
        Ok(FlatExpr { expr, reads })
    }

    /// What it reads, in the order of the text.
    pub fn reads(&self) -> &[ReadRef<'a>]
        ensures reads { result.now ≡ reads_of (formula_of self.now) }
    {
        self.reads.as_slice()
    }
}

/// The body of a rule.
#[derive(Drop)]
pub enum FlatBody<'a> {
    Plain(FlatExpr<'a>),
    FirstThen(FlatExpr<'a>, FlatExpr<'a>),
    Fold(&'a Name, FlatExpr<'a>, FlatExpr<'a>),
}

/// A rule.
#[derive(Drop)]
pub struct FlatRule<'a> {
    pub target: &'a Target,
    pub body: FlatBody<'a>,
}

pub(crate) fn flat_rule<'a>(alloc: Global, rule: &'a Rule) -> Result<FlatRule<'a>, AllocError>
    ensures rule { IfOk result (λ flat. rule_in flat ≡ rule.now) }
{
    Ok(FlatRule {
        target: &rule.target,
        body: flat_body(alloc, &rule.body)?,
    })
}

fn flat_body<'a>(alloc: Global, body: &'a Body) -> Result<FlatBody<'a>, AllocError>
    ensures body { IfOk result (λ flat. body_in flat ≡ body.now) }
{
    match body {
        Body::Plain(expr) => Ok(FlatBody::Plain(FlatExpr::new(alloc, expr)?)),
        Body::FirstThen(first, later) => Ok(FlatBody::FirstThen(
            FlatExpr::new(alloc, first)?,
            FlatExpr::new(alloc, later)?,
        )),
        Body::Fold(child, start, step) => Ok(FlatBody::Fold(
            child,
            FlatExpr::new(alloc, start)?,
            FlatExpr::new(alloc, step)?,
        )),
    }
}
