//! The values that solve a tree.

ghost use Rattle.std.specs.Prelude.{◌≡◌, map, IfOk};
ghost use Rattle.ftl_deps.specs.reads.Meant.{meant};
ghost use Rattle.ftl_model.specs.layout.Table.{SolvesList};
ghost use Rattle.ftl_step_value.specs.value.StepValue.{IsCodeFor};
ghost use Rattle.ftl_tree.specs.boxes.WordValues.{value_of_word};

use ftl_base::{Val, val_of};
use ftl_checked::Checked;
use ftl_demand::solve_by_demand;
use ftl_noncircular::Noncircular;
use ftl_tree::{Tree, words_are_undone};
use ftl_visit::Programs;
use std::alloc::{AllocError, Global};

/// The values, computed by demand.
pub(crate) fn values_by_demand(
    alloc: Global,
    checked: &Checked,
    found: &Noncircular<'_>,
    programs: &Programs,
    tree: &Tree,
) -> Result<Vec<Val>, AllocError>
    requires noncircular { found.now ≡ checked.now }
    requires code { IsCodeFor checked.now programs.now }
    requires grammar { tree.now.checked ≡ checked.now }
    ensures solved { IfOk result (λ v. SolvesList (meant checked.now) tree.now.tree v.items) }
{
    words_are_undone();
    let words = solve_by_demand(alloc, checked, found, programs, tree)?;
    values_of(alloc, words.as_slice())
}

/// The values that words stand for.
fn values_of(alloc: Global, words: &[u64]) -> Result<Vec<Val>, AllocError>
    ensures values { IfOk result (λ v. v.items ≡ map value_of_word words.now) }
{
    let mut values = Vec::with_capacity(alloc, words.len())?;
    for place in 0..words.len() {
        values.push(value_of(words[place]))?;
    }
    Ok(values)
}

/// The value that a word stands for.
#[tactic(auto, using(ftl_tree::proofs::boxes::Words::word_steps))]
fn value_of(word: u64) -> Val
    ensures value { result ≡ value_of_word word }
{
    match val_of(word) {
        Some(value) => {
            let _in_range = value.get();
            value
        }
        None => Val::overflow(),
    }
}
