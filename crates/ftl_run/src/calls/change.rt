//! Trees after edits, shown.

ghost use Rattle.std.specs.Prelude.{◌≡◌, map, IfOk};
ghost use Rattle.ftl_answer.specs.answers.Answers.{edited_by};
ghost use Rattle.ftl_answer.specs.answers.Stages.{ends};
ghost use Rattle.ftl_demand.specs.demand.Solved.{IsSolvedBy};
ghost use Rattle.ftl_deps.specs.reads.Meant.{meant};
ghost use Rattle.ftl_edits.specs.meaning.Editable.{AreEditsOf};
ghost use Rattle.ftl_model.specs.layout.Table.{SolvesList};
ghost use Rattle.ftl_relayout.specs.relaid.Relaid.{edited_tree};
ghost use Rattle.ftl_answer.specs.reading.sections.Outcomes.{answer_of};
ghost use Rattle.ftl_run.specs.calls.ChangedTrees.{IsRelaidBy};
ghost use Rattle.ftl_tree.specs.boxes.WordValues.{value_of_word};
ghost use Rattle.ftl_visit.specs.compiled.Compilable.{HasCode};
ghost use Rattle.ftl_visit.specs.compiled.RuleCode.{rule_codes};

use crate::calls::shown::change_shown;
use ftl_answer::reading::Decided;
use ftl_base::{Val, val_of, word_of};
use ftl_checked::Checked;
use ftl_edits::EditList;
use ftl_relayout::relayout;
use ftl_schedule::Accepted;
use ftl_tree::{Tree, words_are_undone};
use ftl_visit::{Programs, Runner};
use std::alloc::{AllocError, Global};

/// The tree with its edits applied, shown, by the words of the tree before.
#[inline(never)]
pub(crate) fn edited_shown(
    alloc: Global,
    checked: &Checked,
    accepted: &Accepted<'_>,
    programs: &Programs,
    tree: Tree<'_>,
    words: Vec<u64>,
    edits: &EditList,
) -> Result<Decided, AllocError>
    requires accepted { accepted.now.checked ≡ checked.now }
    requires rules { programs.now.rules ≡ rule_codes checked.now.grammar }
    requires width { programs.now.width ≡ checked.now.width }
    requires code { HasCode checked.now.grammar }
    requires grammar { tree.checked ≡ checked.now }
    requires solved { IsSolvedBy tree words.items }
    requires edits { AreEditsOf tree edits.now }
    ensures outcome { IfOk result (λ d. edited_by tree.entry.checked tree.entry.tree edits.now
        (ends (answer_of d))) }
{
    words_are_undone();
    let mut tree = tree;
    let mut values = values_of(alloc, words.as_slice())?;
    let cells = values.as_mut_slice();
    let touched = laid_out_anew(alloc, checked, accepted, programs, &mut tree, cells, edits)?;
    let words = words_of(alloc, values.as_slice())?;
    change_shown(alloc, &tree, words.as_slice(), touched)
}

/// Applies the edits to the tree, and computes the values anew that they touch. The answer is how
/// many instances were touched.
fn laid_out_anew(
    alloc: Global,
    checked: &Checked,
    accepted: &Accepted<'_>,
    programs: &Programs,
    tree: &mut Tree<'_>,
    values: &mut [Val],
    edits: &EditList,
) -> Result<u64, AllocError>
    requires accepted { accepted.now.checked ≡ checked.now }
    requires rules { programs.now.rules ≡ rule_codes checked.now.grammar }
    requires width { programs.now.width ≡ checked.now.width }
    requires code { HasCode checked.now.grammar }
    requires grammar { tree.old.checked ≡ checked.now }
    requires values { SolvesList (meant checked.now) tree.old.tree values.old }
    requires edits { AreEditsOf tree.old edits.now }
    ensures grammar { tree.new.checked ≡ checked.now }
    ensures tree { IfOk result (λ _. tree.new.tree
        ≡ edited_tree checked.now tree.old.tree edits.now) }
    ensures relaid { IfOk result (IsRelaidBy checked.now tree.new.tree values.old values.new) }
{
    let mut runner = Runner::new(programs);
    let touched = relayout(alloc, checked, accepted, &mut runner, tree, values, edits)?;
    Ok(touched.len() as u64)
}

/// The values that words stand for.
pub fn values_of(alloc: Global, words: &[u64]) -> Result<Vec<Val>, AllocError>
    ensures values { IfOk result (λ v. v.items ≡ map value_of_word words.now) }
{
    let mut values = Vec::with_capacity(alloc, words.len())?;
    for place in 0..words.len() {
        values.push(value_of(words[place]))?;
    }
    Ok(values)
}

/// The value that a word stands for.
#[tactic(auto, using(ftl_tree::proofs::boxes::Words::word_steps))]
fn value_of(word: u64) -> Val
    ensures value { result ≡ value_of_word word }
{
    match val_of(word) {
        Some(value) => {
            let _in_range = value.get();
            value
        }
        None => Val::overflow(),
    }
}

/// The words of values.
pub fn words_of(alloc: Global, values: &[Val]) -> Result<Vec<u64>, AllocError>
    ensures values { IfOk result (λ v. map value_of_word v.items ≡ values.now) }
{
    let mut words = Vec::with_capacity(alloc, values.len())?;
    for place in 0..values.len() {
        words.push(word_for(values[place]))?;
    }
    Ok(words)
}

/// The word of a value.
fn word_for(value: Val) -> u64
    ensures value { value_of_word result ≡ value }
{
    words_are_undone();
    let _in_range = value.get();
    word_of(value)
}
