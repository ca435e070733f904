//! Laws of code.
ghost use Rattle.std.specs.Prelude.{◌≡◌, ℕ, Bool, true, map, length, Option, Some};
ghost use Rattle.ftl_meaning.specs.declared.formulas.read_name.ReadName.{ReadName};
ghost use Rattle.ftl_meaning.specs.formulas.Formula.{Formula};
ghost use Rattle.ftl_meaning.specs.grammars.Meaning.{value_by};
ghost use Rattle.ftl_model.specs.layout.Values.{Value};
ghost use Rattle.ftl_visit.specs.rule_code.Code.{code_of, taken_by, HasDivisors};
ghost use Rattle.ftl_visit.specs.rule_code.Depth.{Stands};
ghost use Rattle.ftl_visit.specs.rule_code.Machine.{Computes, ComputesOfAny};

/// Running the code of a formula on what its reads are gives the formula's value, and each
/// instruction finds what it needs, from empty stacks and with as many reads as the code takes.
/// Of any reads, as many as it takes, the code computes something.
pub fn code_computes_the_formula()
    ensures value { (greatest : ℕ) (so_far : Value) (is_so_far : ReadName → Bool)
        (look : ReadName → Option Value)
        → ((r : ReadName) → is_so_far r ≡ true → look r ≡ Some so_far)
        → (f : Formula ReadName) → HasDivisors f
        → Computes greatest so_far (code_of is_so_far f) (map look (taken_by is_so_far f))
        (value_by greatest look f) }
    ensures stands { (is_so_far : ReadName → Bool) (f : Formula ReadName) → HasDivisors f
        → Stands (code_of is_so_far f) 0 0 0 (length (taken_by is_so_far f)) }
    ensures any { (is_so_far : ReadName → Bool) (f : Formula ReadName) → HasDivisors f
        → ComputesOfAny (code_of is_so_far f) (length (taken_by is_so_far f)) }
{}
