//! Sums over the values that nodes show.

ghost use Rattle.std.specs.Prelude.{◌≡◌, ◌+◌, ◌<◌, ◌++◌, List, length, IfOk};
ghost use Rattle.ftl_model.specs.layout.Table.{instance_count};
ghost use Rattle.ftl_model.specs.layout.Tree.{size};
ghost use Rattle.ftl_model.specs.layout.Values.{Value};
ghost use Rattle.ftl_deps.specs.reads.Meant.{meant};
ghost use Rattle.ftl_meaning.specs.grammars.GrammarOf.{names_of};
ghost use Rattle.ftl_tree.specs.boxes.Shows.{HasWords, node_shows};
ghost use Rattle.ftl_tree.specs.boxes.WordValues.{table_of_words};
ghost use Rattle.ftl_answer.specs.answers.Summary.{shown_values};
ghost use Rattle.ftl_answer.specs.summary.Summed.{AreSumsOf, AreWithin, values_of};

use crate::summary::sums::{Sums, no_sums, with_word};
use ftl_tree::{Tree, shown_by, shown_rows, word_at};
use std::alloc::{AllocError, Global};

/// The sums of all values that a tree shows.
pub(crate) fn sums_of(alloc: Global, tree: &Tree, words: &[u64]) -> Result<Sums, AllocError>
    requires words { length words.now ≡ instance_count (meant tree.now.checked) tree.now.tree }
    ensures sums { IfOk result (AreSumsOf (shown_values (names_of tree.now.checked.grammar)
        tree.now.tree (table_of_words tree.now words.now))) }
{
    let rows = shown_rows(alloc, tree.checked())?;
    let mut sums = no_sums();
    for node in 0..tree.node_count() {
        shows_few(tree, node);
        sums = with_node(sums, tree, words, shown_by(&rows, tree, node), node);
    }
    Ok(sums)
}

/// Says of a node that 32 bits count what it shows, as they number all attributes.
fn shows_few(tree: &Tree, node: u32)
    requires node { node < size tree.now.tree }
    ensures few { length (node_shows tree.now node) < 4294967296 }
{
    let checked = tree.checked();
    checked.grammar();
    checked.attr_count();
    tree.row(node);
}

/// Sums with the values that a node shows.
fn with_node(sums: Sums, tree: &Tree, words: &[u64], shown: &[u32], node: u32) -> Sums
    requires words { HasWords tree.now words.now }
    requires node { node < size tree.now.tree }
    requires shown { shown.now ≡ node_shows tree.now node }
    requires room { sums.shown + length shown.now < 4503599627370496 }
    requires within { AreWithin sums }
    ensures more { (values : List Value) → AreSumsOf values sums
        → AreSumsOf (values ++ values_of tree.now words.now node shown.now) result }
    ensures within { AreWithin result }
    ensures shown { result.shown ≡ sums.shown + length shown.now }
{
    let mut all = sums;
    for attr in shown {
        all = with_word(all, word_at(tree, words, node, *attr));
    }
    all
}
