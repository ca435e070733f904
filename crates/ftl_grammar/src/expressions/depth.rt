//! Expressions and conditions with brackets in brackets.

ghost use Rattle.ftl_tokens.specs.reading.Reader.{Reads};
ghost use Rattle.ftl_grammar.specs.syntax.ExpressionReading as spec;

use crate::expressions::nested::Nested;
use crate::syntax::{Cond, Expr};
use ftl_tokens::{Input, ReadFault};
use std::alloc::Global;

/// An expression with fewer than `depth` brackets in one another.
#[cycle(nested)]
pub fn expr(alloc: Global, input: &mut Input<'_>, depth: usize) -> Result<Expr, ReadFault>
    ensures reads { Reads (spec.expr depth input.old) result input.new }
{
    if depth == 0 {
        return Err(ReadFault::Refused);
    }
    let nested = Nested {
        depth: depth - 1,
        expr,
        cond,
    };
    nested.expr_level(alloc, input)
}

/// A condition with fewer than `depth` brackets in one another.
#[cycle(nested)]
fn cond(alloc: Global, input: &mut Input<'_>, depth: usize) -> Result<Cond, ReadFault>
    ensures reads { Reads (spec.cond depth input.old) result input.new }
{
    if depth == 0 {
        return Err(ReadFault::Refused);
    }
    let nested = Nested {
        depth: depth - 1,
        expr,
        cond,
    };
    nested.cond_level(alloc, input)
}
