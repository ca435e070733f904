ghost use Rattle.std.specs.Prelude.{◌≡◌, ℕ, ◌<◌, ◌≤◌, ◌⊎◌, MatchOption, None, Some};
ghost use Rattle.ftl_model.specs.layout.Values.{Value, IsValue, overflow_word, word_of_value};

use crate::val::Val;

/// The word of the number 0. The words of the other numbers stand below and above it.
const ZERO: i64 = 140737488355329;

/// The word of Overflow, and the greatest word of a value.
const OVERFLOW: u64 = 281474976710657;

/// The word that stands for a value in a cell. It is never 0, which says that a cell is empty.
pub fn word_of(v: Val) -> u64
    ensures word { result ≡ word_of_value v }
    ensures not_empty { 0 < result }
    ensures bound { result ≤ overflow_word }
{
    (v.number + ZERO) as u64
}

/// The value that a word stands for. 0 and words above that of Overflow stand for none.
pub fn val_of(word: u64) -> Option<Val>
    ensures value { MatchOption result ((word ≡ 0) ⊎ (overflow_word < word))
        (λ v. word ≡ word_of_value v) }
    ensures only { (v : Value) → IsValue v → word ≡ word_of_value v → result ≡ Some v }
{
    match word {
        1..=OVERFLOW => Some(Val {
            number: word as i64 - ZERO,
        }),
        _ => None,
    }
}
