ghost use Rattle.std.specs.Prelude.{◌≡◌};
ghost use Rattle.ftl_base.specs.Truths.{comparison_of, holds, truth_of};

use crate::truth::Truth;
use crate::val::Val;

/// How two values are compared.
#[derive(Clone, Copy, Debug, PartialEq, Eq)]
pub enum Cmp {
    Less,
    LessEq,
    More,
    MoreEq,
    Equal,
    Unequal,
}

impl Cmp {
    fn holds(self, m: i64, n: i64) -> bool
        ensures holds { result ≡ holds self m n }
    {
        match self {
            Cmp::Less => m < n,
            Cmp::LessEq => m <= n,
            Cmp::More => m > n,
            Cmp::MoreEq => m >= n,
            Cmp::Equal => m == n,
            Cmp::Unequal => m != n,
        }
    }
}

/// Whether two values compare so. Overflow where one of them is.
pub fn compare(op: Cmp, a: Val, b: Val) -> Truth
    ensures comparison { result ≡ comparison_of op a b }
{
    match (a.get(), b.get()) {
        (Some(m), Some(n)) => {
            if op.holds(m, n) {
                Truth::Yes
            } else {
                Truth::No
            }
        }
        _ => Truth::Overflow,
    }
}
