ghost use Rattle.std.specs.Prelude.{◌≡◌};
ghost use Rattle.ftl_base.specs.Truths.{both_of, either_of, opposite_of, choice_of};

use crate::val::Val;

/// What a comparison gives, and what a condition of a rule is. A comparison with Overflow is
/// Overflow.
#[derive(Clone, Copy, Debug, PartialEq, Eq)]
pub enum Truth {
    Yes,
    No,
    Overflow,
}

/// Whether both hold. Overflow where one of them is.
pub fn both(a: Truth, b: Truth) -> Truth
    ensures both { result ≡ both_of a b }
{
    match (a, b) {
        (Truth::Overflow, _) | (_, Truth::Overflow) => Truth::Overflow,
        (Truth::Yes, Truth::Yes) => Truth::Yes,
        _ => Truth::No,
    }
}

/// Whether one of them holds. Overflow where one of them is.
pub fn either(a: Truth, b: Truth) -> Truth
    ensures either { result ≡ either_of a b }
{
    match (a, b) {
        (Truth::Overflow, _) | (_, Truth::Overflow) => Truth::Overflow,
        (Truth::No, Truth::No) => Truth::No,
        _ => Truth::Yes,
    }
}

/// The other answer. Overflow where it is.
pub fn not(a: Truth) -> Truth
    ensures opposite { result ≡ opposite_of a }
{
    match a {
        Truth::Yes => Truth::No,
        Truth::No => Truth::Yes,
        Truth::Overflow => Truth::Overflow,
    }
}

/// The value of the branch that a condition chooses. Overflow where the condition is; the value of
/// the other branch plays no part.
pub fn choose(t: Truth, yes: Val, no: Val) -> Val
    ensures choice { result ≡ choice_of t yes no }
{
    match t {
        Truth::Yes => yes,
        Truth::No => no,
        Truth::Overflow => Val::overflow(),
    }
}
