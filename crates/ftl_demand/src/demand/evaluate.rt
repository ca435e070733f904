//! What a step lacks is computed before it.
ghost use Rattle.std.specs.Prelude.{◌≡◌, ◌≢◌, ◌≤◌, [], OnOk};
ghost use Rattle.ftl_deps.specs.reads.Meant.{meant};
ghost use Rattle.ftl_order.specs.steps.Steps.{target_of};
ghost use Rattle.ftl_demand.specs.demand.Frames.{IsWaiting};
ghost use Rattle.ftl_demand.specs.demand.Sites.{AreWordsOf, HasShortChains, IsAttr, IsSite};
ghost use Rattle.ftl_demand.specs.demand.Sites.{instance_at, word_at};
ghost use Rattle.ftl_demand.specs.demand.Words.{StaysWhereThere};

use crate::demand::advance::advance;
use crate::demand::ready::ready_value;
use crate::demand::waiting::{Buffers, NodeAttr, Outcome, Site, Waiting};
use crate::demand::writer::writer;
use ftl_base::word_of;
use std::alloc::AllocError;

/// Computes an attribute whose word is not there yet, and before it what it lacks.
#[inline(never)]
pub(crate) fn evaluate(
    site: &Site<'_>,
    wanted: NodeAttr,
    waiting: &mut Vec<Waiting>,
    words: &mut [u64],
    buffers: &mut Buffers,
) -> Result<(), AllocError>
    requires site { IsSite site.now }
    requires known { IsAttr site.now.tree.now wanted }
    requires lacking { word_at site.now.tree.now words.old
        (instance_at site.now.tree.now wanted) ≡ 0 }
    requires empty { waiting.old.items ≡ [] }
    requires words { AreWordsOf site.now.tree.now words.old }
    requires ends { HasShortChains site.now.tree.now }
    requires room { site.now.programs.now.max_stack ≤ buffers.old.stack.room }
    ensures there { OnOk result (word_at site.now.tree.now words.new
        (instance_at site.now.tree.now wanted) ≢ 0) }
    ensures stays { StaysWhereThere words.old words.new }
    ensures words { AreWordsOf site.now.tree.now words.new }
    ensures empty { OnOk result (waiting.new.items ≡ []) }
    ensures room { buffers.new.stack.room ≡ buffers.old.stack.room }
{
    let _nodes = site.tree.node_count();
    let first = waiting_step(site, wanted, words);
    // What reads nothing that is lacking need not wait.
    let Some(value) = ready_value(site, first.step, words, buffers)? else {
        return evaluate_first(site, wanted, first, waiting, words, buffers);
    };
    words[first.cell as usize] = word_of(value);
    Ok(())
}

/// The same by this step, which computes the attribute, and may have to wait.
#[inline(never)]
fn evaluate_first(
    site: &Site<'_>,
    wanted: NodeAttr,
    first: Waiting,
    waiting: &mut Vec<Waiting>,
    words: &mut [u64],
    buffers: &mut Buffers,
) -> Result<(), AllocError>
    requires site { IsSite site.now }
    requires first { IsWaiting site.now.tree.now first }
    requires target { target_of (meant site.now.tree.now.checked) site.now.tree.now.tree first.step
        ≡ instance_at site.now.tree.now wanted }
    requires lacking { word_at site.now.tree.now words.old
        (instance_at site.now.tree.now wanted) ≡ 0 }
    requires empty { waiting.old.items ≡ [] }
    requires words { AreWordsOf site.now.tree.now words.old }
    requires ends { HasShortChains site.now.tree.now }
    requires room { site.now.programs.now.max_stack ≤ buffers.old.stack.room }
    ensures there { OnOk result (word_at site.now.tree.now words.new
        (instance_at site.now.tree.now wanted) ≢ 0) }
    ensures stays { StaysWhereThere words.old words.new }
    ensures words { AreWordsOf site.now.tree.now words.new }
    ensures empty { OnOk result (waiting.new.items ≡ []) }
    ensures room { buffers.new.stack.room ≡ buffers.old.stack.room }
{
    let _nodes = site.tree.node_count();
    waiting.push(first)?;
    while let Some(next) = waiting.pop() {
        let mut top = next;
        match advance(site, &mut top, words, buffers)? {
            Outcome::Done(value) => words[top.cell as usize] = word_of(value),
            Outcome::Lacks(lacking) => {
                waiting.push(top)?;
                waiting.push(waiting_step(site, lacking, words))?;
            }
        }
    }
    Ok(())
}

/// The step that computes an attribute whose word is not there yet; it has taken nothing.
#[inline(always)]
fn waiting_step(site: &Site<'_>, wanted: NodeAttr, words: &[u64]) -> Waiting
    requires site { IsSite site.now }
    requires known { IsAttr site.now.tree.now wanted }
    requires words { AreWordsOf site.now.tree.now words.now }
    requires lacking { word_at site.now.tree.now words.now
        (instance_at site.now.tree.now wanted) ≡ 0 }
    ensures waiting { IsWaiting site.now.tree.now result }
    ensures target { target_of (meant site.now.tree.now.checked) site.now.tree.now.tree result.step
        ≡ instance_at site.now.tree.now wanted }
{
    let _nodes = site.tree.node_count();
    Waiting {
        step: writer(site, wanted),
        cell: site.tree.instance(wanted.node, wanted.attr),
        taken: 0,
        so_far: None,
    }
}
