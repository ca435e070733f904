//! The words of the values that solve a tree.
ghost use Rattle.std.specs.Prelude.{◌≡◌, ◌≢◌, ◌<◌, ◌≤◌, ℕ, [], IfOk, OnOk};
ghost use Rattle.ftl_deps.specs.reads.Meant.{meant};
ghost use Rattle.ftl_step_value.specs.limits.reads.ReadTables.{class_in, instance_in};
ghost use Rattle.ftl_model.specs.layout.Solves.{Instance, IsInstance};
ghost use Rattle.ftl_model.specs.layout.Tree.{size};
ghost use Rattle.ftl_order.specs.orders.Lawful.{OfClass};
ghost use Rattle.ftl_visit.specs.compiled.RuleCode.{rule_codes};
ghost use Rattle.ftl_demand.specs.demand.Sites.{AreWordsOf, HasShortChains, IsAttr, IsSite};
ghost use Rattle.ftl_demand.specs.demand.Sites.{instance_at, word_at};
ghost use Rattle.ftl_demand.specs.demand.Solved.{IsSolvedBy};
ghost use Rattle.ftl_demand.specs.demand.Words.{StaysWhereThere};

use crate::demand::evaluate::evaluate;
use crate::demand::waiting::{Buffers, NodeAttr, Site, Waiting};
use crate::demand::writer::own_rule;
use ftl_base::CodeStack;
use ftl_checked::Checked;
use ftl_noncircular::{Noncircular, chains_of_reads_end, one_list_where_noncircular};
use ftl_order::values_are_in_range;
use ftl_plan::first_words;
use ftl_step_value::limits::{ReadTables, is_sound};
use ftl_step_value::{neighbour_parts, rule_copies};
use ftl_tree::{Tree, attribute_places};
use ftl_visit::Programs;
use std::alloc::{AllocError, Global};

/// The words of the values that solve a tree of a noncircular grammar, one for each instance. What
/// an instance reads is computed before it, a fold kid by kid; each instance is computed once. Only
/// want of memory refuses.
pub fn solve_by_demand(
    alloc: Global,
    checked: &Checked,
    found: &Noncircular<'_>,
    programs: &Programs,
    tree: &Tree<'_>,
) -> Result<Vec<u64>, AllocError>
    requires grammar { found.now ≡ checked.now }
    requires tree { tree.now.checked ≡ checked.now }
    requires rules { programs.now.rules ≡ rule_codes checked.now.grammar }
    requires width { programs.now.width ≡ checked.now.width }
    ensures solution { IfOk result (λ v. IsSolvedBy tree.now v.items) }
{
    is_sound(checked);
    values_are_in_range();
    chains_of_reads_end();
    one_list_where_noncircular();
    let _noncircular = found.checked();
    let _nodes = tree.node_count();
    let tables = ReadTables::new(alloc, checked)?;
    let copies = rule_copies(alloc, programs, &tables, checked)?;
    let places = attribute_places(alloc, checked)?;
    let neighbours = neighbour_parts(alloc, &places, &tables, checked)?;
    let site = Site {
        tables: &tables,
        copies: copies.as_slice(),
        neighbours: neighbours.as_slice(),
        programs,
        tree,
    };
    let mut buffers = Buffers {
        reads: Vec::new(alloc),
        values: Vec::new(alloc),
        stack: CodeStack::new(alloc, programs.max_stack())?,
    };
    let mut words = first_words(alloc, &tables, tree)?;
    let mut waiting = Vec::new(alloc);
    evaluate_all(&site, &mut waiting, words.as_mut_slice(), &mut buffers)?;
    Ok(words)
}

/// Computes all words that are not there yet.
fn evaluate_all(
    site: &Site<'_>,
    waiting: &mut Vec<Waiting>,
    words: &mut [u64],
    buffers: &mut Buffers,
) -> Result<(), AllocError>
    requires site { IsSite site.now }
    requires empty { waiting.old.items ≡ [] }
    requires words { AreWordsOf site.now.tree.now words.old }
    requires ends { HasShortChains site.now.tree.now }
    requires room { site.now.programs.now.max_stack ≤ buffers.old.stack.room }
    ensures there { OnOk result ((i : Instance)
        → IsInstance (meant site.now.tree.now.checked) site.now.tree.now.tree i
        → word_at site.now.tree.now words.new i ≢ 0) }
    ensures words { AreWordsOf site.now.tree.now words.new }
{
    evaluate_downwards(site, waiting, words, buffers)?;
    // Of what is left the kids' is there before their parent's.
    let nodes = site.tree.node_count();
    for behind in 0..nodes {
        evaluate_node(site, nodes - 1 - behind, waiting, words, buffers)?;
    }
    Ok(())
}

/// Computes, from the first node to the last, what each has from its parent, and all of the leaves:
/// in this order few steps have to wait.
fn evaluate_downwards(
    site: &Site<'_>,
    waiting: &mut Vec<Waiting>,
    words: &mut [u64],
    buffers: &mut Buffers,
) -> Result<(), AllocError>
    requires site { IsSite site.now }
    requires empty { waiting.old.items ≡ [] }
    requires words { AreWordsOf site.now.tree.now words.old }
    requires ends { HasShortChains site.now.tree.now }
    requires room { site.now.programs.now.max_stack ≤ buffers.old.stack.room }
    ensures words { AreWordsOf site.now.tree.now words.new }
    ensures empty { OnOk result (waiting.new.items ≡ []) }
    ensures room { buffers.new.stack.room ≡ buffers.old.stack.room }
{
    for node in 0..site.tree.node_count() {
        if site.tree.subtree_size(node) == 1 {
            evaluate_node(site, node, waiting, words, buffers)?;
        } else {
            evaluate_inherited(site, node, waiting, words, buffers)?;
        }
    }
    Ok(())
}

/// Computes what a node has from its parent.
fn evaluate_inherited(
    site: &Site<'_>,
    node: u32,
    waiting: &mut Vec<Waiting>,
    words: &mut [u64],
    buffers: &mut Buffers,
) -> Result<(), AllocError>
    requires site { IsSite site.now }
    requires node { node < size site.now.tree.now.tree }
    requires empty { waiting.old.items ≡ [] }
    requires words { AreWordsOf site.now.tree.now words.old }
    requires ends { HasShortChains site.now.tree.now }
    requires room { site.now.programs.now.max_stack ≤ buffers.old.stack.room }
    ensures words { AreWordsOf site.now.tree.now words.new }
    ensures empty { OnOk result (waiting.new.items ≡ []) }
    ensures room { buffers.new.stack.room ≡ buffers.old.stack.room }
{
    let tree = site.tree;
    let _nodes = tree.node_count();
    let class = tree.class(node);
    let rows = site.tables.attributes.as_slice();
    for attr in rows[class as usize].as_slice() {
        if own_rule(site.tables, tree, node, *attr).is_none() {
            let wanted = NodeAttr { node, attr: *attr };
            evaluate_attr(site, wanted, waiting, words, buffers)?;
        }
    }
    Ok(())
}

/// Computes the words of a node that are not there yet.
fn evaluate_node(
    site: &Site<'_>,
    node: u32,
    waiting: &mut Vec<Waiting>,
    words: &mut [u64],
    buffers: &mut Buffers,
) -> Result<(), AllocError>
    requires site { IsSite site.now }
    requires node { node < size site.now.tree.now.tree }
    requires empty { waiting.old.items ≡ [] }
    requires words { AreWordsOf site.now.tree.now words.old }
    requires ends { HasShortChains site.now.tree.now }
    requires room { site.now.programs.now.max_stack ≤ buffers.old.stack.room }
    ensures there { OnOk result ((attr : ℕ)
        → OfClass (meant site.now.tree.now.checked) (class_in site.now.tree.now node) attr
        → word_at site.now.tree.now words.new (instance_in site.now.tree.now node attr) ≢ 0) }
    ensures stays { StaysWhereThere words.old words.new }
    ensures words { AreWordsOf site.now.tree.now words.new }
    ensures empty { OnOk result (waiting.new.items ≡ []) }
    ensures room { buffers.new.stack.room ≡ buffers.old.stack.room }
{
    let tree = site.tree;
    let _nodes = tree.node_count();
    let class = tree.class(node);
    let rows = site.tables.attributes.as_slice();
    for attr in rows[class as usize].as_slice() {
        let wanted = NodeAttr { node, attr: *attr };
        evaluate_attr(site, wanted, waiting, words, buffers)?;
    }
    Ok(())
}

/// Computes the word of an attribute if it is not there yet.
#[inline(always)]
fn evaluate_attr(
    site: &Site<'_>,
    wanted: NodeAttr,
    waiting: &mut Vec<Waiting>,
    words: &mut [u64],
    buffers: &mut Buffers,
) -> Result<(), AllocError>
    requires site { IsSite site.now }
    requires known { IsAttr site.now.tree.now wanted }
    requires empty { waiting.old.items ≡ [] }
    requires words { AreWordsOf site.now.tree.now words.old }
    requires ends { HasShortChains site.now.tree.now }
    requires room { site.now.programs.now.max_stack ≤ buffers.old.stack.room }
    ensures there { OnOk result (word_at site.now.tree.now words.new
        (instance_at site.now.tree.now wanted) ≢ 0) }
    ensures stays { StaysWhereThere words.old words.new }
    ensures words { AreWordsOf site.now.tree.now words.new }
    ensures empty { OnOk result (waiting.new.items ≡ []) }
    ensures room { buffers.new.stack.room ≡ buffers.old.stack.room }
{
    let _nodes = site.tree.node_count();
    let cell = site.tree.instance(wanted.node, wanted.attr);
    if words[cell as usize] != 0 {
        return Ok(());
    }
    evaluate(site, wanted, waiting, words, buffers)
}
