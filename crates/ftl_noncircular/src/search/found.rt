//! Grammars that were found to be noncircular.

ghost use Rattle.std.specs.Prelude.{◌≡◌};
ghost use Rattle.ftl_deps.specs.reads.Meant.{meant};
ghost use Rattle.ftl_noncircular.specs.grammars.Noncircular.{IsNoncircular};

use ftl_checked::Checked;
use std::marker::Model;

/// A grammar that is noncircular. Contracts see the grammar.
#[derive(Drop)]
pub struct Noncircular<'a> {
    checked: &'a Checked,
}

impl<'a> Model for Noncircular<'a> {
    ghost use Rattle.std.specs.Coded.{codes};
    ghost use Rattle.ftl_grammar.specs.contracts.syntax.expression.Expr as e;
    ghost use Rattle.ftl_deps.specs.reads.Meant.{meant};
    ghost use Rattle.ftl_meaning.specs.faults.Checked.{CheckedGrammar};
    ghost use Rattle.ftl_noncircular.specs.grammars.Noncircular.{IsNoncircular};

    ghost Value = { CheckedGrammar };

    ghost coded = { Prim.hlevel (codes, e.the_row.coded) };

    ghost view = { λ n. n.checked.now };

    ghost invariant = { λ n. IsNoncircular (meant n.checked.now) };
}

impl<'a> Noncircular<'a> {
    pub(crate) fn new(checked: &'a Checked) -> Noncircular<'a>
        requires noncircular { IsNoncircular (meant checked.now) }
        ensures grammar { result ≡ checked.now }
    {
        Noncircular { checked }
    }

    /// The grammar.
    pub fn checked(&self) -> &Checked
        ensures grammar { result.now ≡ self.now }
        ensures noncircular { IsNoncircular (meant self.now) }
    {
        self.checked
    }
}
