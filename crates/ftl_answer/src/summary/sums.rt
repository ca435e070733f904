//! Sums of shown values.

ghost use Rattle.std.specs.Prelude.{◌≡◌, ◌+◌, ◌<◌, ◌++◌, List, [], ◌∷◌};
ghost use Rattle.ftl_model.specs.layout.Values as value;
ghost use Rattle.ftl_tree.specs.boxes.WordValues.{value_of_word};
ghost use Rattle.ftl_answer.specs.summary.Summed.{AreSumsOf, AreWithin};

use crate::summary::arithmetic::{plus, weighted};
use ftl_tree::number_of_word;

/// How many values there are, how many of them are Overflow, and the sums of the others: once each,
/// and by the weights of their places.
#[derive(Clone, Copy)]
pub(crate) struct Sums {
    pub(crate) shown: u64,
    pub(crate) overflows: u64,
    pub(crate) sum: i128,
    pub(crate) mix: i128,
}

/// Those of no values.
pub(crate) fn no_sums() -> Sums
    ensures none { AreSumsOf [] result }
    ensures within { AreWithin result }
    ensures shown { result.shown ≡ 0 }
{
    Sums {
        shown: 0,
        overflows: 0,
        sum: 0,
        mix: 0,
    }
}

/// Those with one value more.
pub(crate) fn with_word(sums: Sums, word: u64) -> Sums
    requires room { sums.shown < 4503599627370496 }
    requires within { AreWithin sums }
    ensures more { (values : List value.Value) → AreSumsOf values sums
        → AreSumsOf (values ++ (value_of_word word ∷ [])) result }
    ensures within { AreWithin result }
    ensures shown { result.shown ≡ sums.shown + 1 }
{
    match number_of_word(word) {
        Some(number) => with_number(sums, number),
        None => with_overflow(sums),
    }
}

fn with_number(sums: Sums, number: i64) -> Sums
    requires room { sums.shown < 4503599627370496 }
    requires within { AreWithin sums }
    requires in_range { value.IsValue (value.number number) }
    ensures more { (values : List value.Value) → AreSumsOf values sums
        → AreSumsOf (values ++ (value.number number ∷ [])) result }
    ensures within { AreWithin result }
    ensures shown { result.shown ≡ sums.shown + 1 }
{
    let sum = plus(sums.sum, number);
    let mix = plus(sums.mix, weighted(number, sums.shown));
    Sums {
        shown: sums.shown + 1,
        overflows: sums.overflows,
        sum,
        mix,
    }
}

fn with_overflow(sums: Sums) -> Sums
    requires room { sums.shown < 4503599627370496 }
    requires within { AreWithin sums }
    ensures more { (values : List value.Value) → AreSumsOf values sums
        → AreSumsOf (values ++ (value.overflow ∷ [])) result }
    ensures within { AreWithin result }
    ensures shown { result.shown ≡ sums.shown + 1 }
{
    Sums {
        shown: sums.shown + 1,
        overflows: sums.overflows + 1,
        sum: sums.sum,
        mix: sums.mix,
    }
}
