//! The words of attributes, and what words stand for.

ghost use Rattle.std.specs.Prelude.{◌≡◌, ◌≢◌, ◌<◌, ℕ, Contains, IfSome, MatchOption, pos};
ghost use Rattle.ftl_model.specs.layout.Path.{node_at};
ghost use Rattle.ftl_model.specs.layout.Solves.{instance_of};
ghost use Rattle.ftl_model.specs.layout.Tree.{size};
ghost use Rattle.ftl_model.specs.layout.Values.{IsValue, number, overflow};
ghost use Rattle.ftl_tree.specs.boxes.Shows.{HasWords, node_shows};
ghost use Rattle.ftl_tree.specs.boxes.WordValues.{table_of_words, value_of_word};

use crate::trees::Tree;
use ftl_base::val_of;

/// The word of the number 0.
const ZERO: u64 = 140737488355329;

/// Numbers below this have eight digits at most.
const SHORT: u64 = 100_000_000;

/// The word of an attribute that the node shows, by one look-up of its instance.
pub fn word_at(tree: &Tree, words: &[u64], node: u32, attr: u32) -> u64
    requires words { HasWords tree.now words.now }
    requires node { node < size tree.now.tree }
    requires attr { Contains (node_shows tree.now node) attr }
    ensures value { value_of_word result ≡ table_of_words tree.now words.now
        (instance_of (node_at tree.now.tree node) attr) }
{
    words[tree.instance(node, attr) as usize]
}

/// The number that a word stands for, in the range of the wide width; none where it stands for
/// Overflow.
#[tactic(auto, using(crate::proofs::boxes::Words::word_steps))]
pub fn number_of_word(word: u64) -> Option<i64>
    ensures number { MatchOption result (value_of_word word ≡ overflow)
        (λ n. value_of_word word ≡ number n) }
    ensures in_range { IfSome result (λ n. IsValue (number n)) }
{
    match val_of(word) {
        Some(value) => value.get(),
        None => None,
    }
}

/// The number that a word stands for where it has no sign and eight digits at most, as most have.
#[inline(always)]
pub(crate) fn short_of_word(word: u64) -> Option<u32>
    ensures short { IfSome result (λ n. n < 100000000) }
    ensures number { MatchOption result
        ((n : ℕ) → n < 100000000 → value_of_word word ≢ number (pos n))
        (λ n. value_of_word word ≡ number (pos n)) }
{
    // Words of numbers with a sign wrap around to greater ones.
    let size = word.wrapping_sub(ZERO);
    if size < SHORT {
        Some(size as u32)
    } else {
        None
    }
}
