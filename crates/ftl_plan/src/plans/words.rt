//! The words of cells before the first stage.
ghost use Rattle.std.specs.Prelude.{◌≡◌, ◌<◌, filter, length, replicate, slice_index_or, IfOk};
ghost use Rattle.ftl_deps.specs.reads.Meant.{meant};
ghost use Rattle.ftl_step_value.specs.limits.reads.ReadTables.{AreTables, IsSound, class_in};
ghost use Rattle.ftl_step_value.specs.limits.reads.ReadTables.{instance_in};
ghost use Rattle.ftl_items.specs.stage_items.WordLaws.{first_word, first_words};
ghost use Rattle.ftl_model.specs.layout.AttributeGrammar.{class_inputs, is_input, input};
ghost use Rattle.ftl_model.specs.layout.Path.{node_at};
ghost use Rattle.ftl_model.specs.layout.Table.{instance_count};
ghost use Rattle.ftl_model.specs.layout.Tree.{size};
ghost use Rattle.ftl_plan.specs.plans.InputWords.{AreInputsSet, inputs_by_class};

use ftl_base::{Val, word_of};
use ftl_checked::Checked;
use ftl_schedule::is_input;
use ftl_step_value::limits::ReadTables;
use ftl_tree::Tree;
use sqlite_items::Items;
use std::alloc::{AllocError, Global};

/// The words of all cells: those of the inputs, and 0 elsewhere. Few attributes are inputs, so a
/// node is asked only for those of its class.
pub fn first_words(
    alloc: Global,
    tables: &ReadTables,
    tree: &Tree<'_>,
) -> Result<Vec<u64>, AllocError>
    requires sound { IsSound (meant tree.now.checked) }
    requires tables { AreTables (meant tree.now.checked) tables.now }
    ensures words { IfOk result (λ v. v.items
        ≡ first_words (meant tree.now.checked) tree.now.tree) }
{
    let inputs = inputs_of_classes(alloc, tables, tree.checked())?;
    let mut words = zero_words(alloc, tree.instance_count() as usize)?;
    for node in 0..tree.node_count() {
        set_inputs(tree, &inputs, node, words.as_mut_slice());
    }
    Ok(words)
}

/// How many zeros are copied at once.
const RUN: usize = 256;

/// So many words that are 0. They are copied run by run, which takes less than a push for each.
fn zero_words(alloc: Global, count: usize) -> Result<Vec<u64>, AllocError>
    ensures zeros { IfOk result (λ v. v.items ≡ replicate count 0) }
{
    let run = [0; RUN];
    let mut words = Vec::with_capacity(alloc, count)?;
    for _run in 0..count / RUN {
        words.extend_from_slice(&run)?;
    }
    words.extend_from_slice(&run[..count % RUN])?;
    Ok(words)
}

/// The inputs of each class.
fn inputs_of_classes(
    alloc: Global,
    tables: &ReadTables,
    checked: &Checked,
) -> Result<Items<Items<u32>>, AllocError>
    requires tables { AreTables (meant checked.now) tables.now }
    ensures inputs { IfOk result (λ t. t ≡ inputs_by_class (meant checked.now)) }
{
    let mut inputs = Items::new(alloc);
    for attrs in tables.attributes.as_slice() {
        inputs.push(inputs_among(alloc, checked, attrs.as_slice())?)?;
    }
    Ok(inputs)
}

/// Those of the attributes that are inputs.
fn inputs_among(alloc: Global, checked: &Checked, attrs: &[u32]) -> Result<Items<u32>, AllocError>
    ensures inputs { IfOk result (λ t. t
        ≡ filter (λ a. is_input ((meant checked.now).sort a)) attrs.now) }
{
    let mut inputs = Items::new(alloc);
    for attr in attrs {
        if is_input(checked, *attr) {
            inputs.push(*attr)?;
        }
    }
    Ok(inputs)
}

/// Sets the words of a node's inputs.
#[inline(always)]
fn set_inputs(tree: &Tree<'_>, inputs: &Items<Items<u32>>, node: u32, words: &mut [u64])
    requires sound { IsSound (meant tree.now.checked) }
    requires inputs { inputs.now ≡ inputs_by_class (meant tree.now.checked) }
    requires node { node < size tree.now.tree }
    requires words { length words.old ≡ instance_count (meant tree.now.checked) tree.now.tree }
    ensures set { AreInputsSet (meant tree.now.checked) tree.now.tree
        (node_at tree.now.tree node) words.old words.new }
{
    let _nodes = tree.node_count();
    let class = tree.class(node);
    let rows = inputs.as_slice();
    let row = rows[class as usize].as_slice();
    for place in 0..row.len() {
        let cell = tree.instance(node, row[place]);
        words[cell as usize] = input_word(tree, node, place);
    }
}

/// The word of the input that stands at this place among those of a node.
#[inline(always)]
fn input_word(tree: &Tree<'_>, node: u32, place: usize) -> u64
    requires sound { IsSound (meant tree.now.checked) }
    requires node { node < size tree.now.tree }
    requires place { place < length (class_inputs (meant tree.now.checked)
        (class_in tree.now node)) }
    ensures word { result ≡ first_word (meant tree.now.checked) tree.now.tree input
        (instance_in tree.now node
        (slice_index_or (class_inputs (meant tree.now.checked) (class_in tree.now node)) place 0)) }
{
    let _nodes = tree.node_count();
    word_of(Val::num(tree.input_at(node, place)))
}
