//! What stands between brackets is read by function values, so that each function around it is
//! proved by itself.

ghost use Rattle.ftl_tokens.specs.reading.Reader.{Reads};
ghost use Rattle.ftl_grammar.specs.syntax.ExpressionReading as spec;
ghost use Rattle.ftl_grammar.specs.expressions.Nests.{IsNested};

use crate::syntax::{Cond, Expr};
use ftl_tokens::{Input, ReadFault};
use std::alloc::Global;

/// What reads expressions and conditions between brackets.
#[derive(Clone, Copy)]
pub struct Nested<E, C> {
    /// How many more brackets may stand in one another.
    pub depth: usize,
    pub expr: E,
    pub cond: C,
}

impl<
    E: Fn(Global, &mut Input<'_>, usize) -> Result<Expr, ReadFault>,
    C: Fn(Global, &mut Input<'_>, usize) -> Result<Cond, ReadFault>,
> Nested<E, C> {
    pub fn expr(&self, alloc: Global, input: &mut Input<'_>) -> Result<Expr, ReadFault>
        requires nested { IsNested E.Fn C.Fn self.now }
        ensures reads { Reads (spec.expr self.now.depth input.old) result input.new }
    {
        (self.expr)(alloc, input, self.depth)
    }

    pub fn cond(&self, alloc: Global, input: &mut Input<'_>) -> Result<Cond, ReadFault>
        requires nested { IsNested E.Fn C.Fn self.now }
        ensures reads { Reads (spec.cond self.now.depth input.old) result input.new }
    {
        (self.cond)(alloc, input, self.depth)
    }
}
