//! A law that holds the fold against formulas that were worked out by hand.

ghost use Rattle.std.specs.Prelude.{◌≡◌};
ghost use Rattle.ftl_meaning.specs.formulas.Formula.{reads_of};
ghost use Rattle.ftl_meaning.specs.formulas.Expressions.{formula_of};
ghost use Rattle.ftl_meaning.specs.formulas.Worked as worked;

/// A law: five expressions of the shipped grammars have the formulas that were typed out for them,
/// and four the reads, in text order.
pub fn worked_formulas()
    ensures widest { formula_of worked.widest ≡ worked.widest_formula }
    ensures widest_reads { reads_of (formula_of worked.widest) ≡ worked.widest_reads }
    ensures inner { formula_of worked.inner ≡ worked.inner_formula }
    ensures breaks { formula_of worked.breaks ≡ worked.breaks_formula }
    ensures breaks_reads { reads_of (formula_of worked.breaks) ≡ worked.breaks_reads }
    ensures offset { formula_of worked.offset ≡ worked.offset_formula }
    ensures offset_reads { reads_of (formula_of worked.offset) ≡ worked.offset_reads }
    ensures below { formula_of worked.below ≡ worked.below_formula }
    ensures below_reads { reads_of (formula_of worked.below) ≡ worked.below_reads }
{}
