ghost use Rattle.std.specs.Prelude.{◌≡◌, MatchOption};
ghost use Rattle.ftl_model.specs.layout.Values.{value_of, wide, IsValue, number, overflow};
ghost use Rattle.ftl_base.specs.Widths.{greatest_of_width};

use crate::width::Width;
use std::marker::Model;

/// The greatest number of both widths.
const GREATEST: i64 = 140737488355327;

/// A value of an attribute: a whole number from -140737488355328 to 140737488355327, or Overflow.
/// It is held as one machine number, Overflow as the one after the greatest.
#[derive(Clone, Copy, Debug, PartialEq, Eq)]
pub struct Val {
    pub(crate) number: i64,
}

impl Model for Val {
    ghost use Rattle.std.specs.Prelude.{◌≡◌};
    ghost use Rattle.ftl_model.specs.layout.Values;
    ghost use Rattle.ftl_base.specs.Held.{IsHeld, holder_of};
    ghost use Rattle.std.proofs.Common.{arith};
    ghost use Rattle.std.proofs.lemmas.Int.{ints};

    ghost Value = { Values.Value };

    ghost view = { λ v. Values.value_of Values.wide v.number };

    ghost invariant = { λ v. IsHeld v.number };

    ghost inverse = { λ v. record { number = holder_of v } };

    ghost inverse_ok = { λ v h. Prim.grind (arith, ints) };
}

impl Val {
    /// The value of a number: itself in the wide range, and Overflow out of it.
    pub fn num(n: i64) -> Val
        ensures value { result ≡ value_of wide n }
    {
        Width::Wide.value(n)
    }

    pub fn overflow() -> Val
        ensures value { result ≡ overflow }
    {
        Val {
            number: GREATEST + 1,
        }
    }

    /// The number, unless the value is Overflow.
    pub fn get(self) -> Option<i64>
        ensures number { MatchOption result (self ≡ overflow) (λ n. self ≡ number n) }
        ensures in_range { IsValue self }
    {
        if self.number <= GREATEST {
            Some(self.number)
        } else {
            None
        }
    }
}

impl Width {
    /// The value of an exact result: itself in the range of the width, and Overflow out of it.
    pub(crate) fn value(self, n: i64) -> Val
        ensures value { result ≡ value_of (greatest_of_width self) n }
    {
        let greatest = self.greatest_number() as i64;
        if -greatest - 1 <= n && n <= greatest {
            Val { number: n }
        } else {
            Val::overflow()
        }
    }
}
