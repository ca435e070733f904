//! Going on with a step as far as what it reads is there.
ghost use Rattle.std.specs.Prelude.{◌≡◌, ◌≤◌, map, IfOk};
ghost use Rattle.ftl_deps.specs.parts.RuleParts.{parts_named, read_meant};
ghost use Rattle.ftl_deps.specs.reads.Meant.{meant};
ghost use Rattle.ftl_model.specs.layout.AttributeGrammar.{fold_over};
ghost use Rattle.ftl_order.specs.orders.Lawful.{EachMay};
ghost use Rattle.ftl_order.specs.steps.Steps.{IsStepOf, rule_at};
ghost use Rattle.ftl_step_value.specs.value.Sites.{IsPartFor};
ghost use Rattle.ftl_visit.specs.rule_values.PartValues.{part_of};
ghost use Rattle.ftl_visit.specs.step_reads.StepReads.{AreOfChildren, IsOfChildren, children_in};
ghost use Rattle.ftl_demand.specs.demand.Frames.{IsWaiting};
ghost use Rattle.ftl_demand.specs.demand.Outcomes.{IsStepOutcome};
ghost use Rattle.ftl_demand.specs.demand.Sites.{AreWordsOf, IsSite};

use crate::demand::part::part_outcome;
use crate::demand::ready::ready_value;
use crate::demand::waiting::{Buffers, Outcome, PartReads, Site, Waiting};
use ftl_base::Val;
use ftl_deps::{PartRead, RuleParts};
use ftl_order::Step;
use ftl_step_value::cells::step_parts;
use ftl_visit::{Part, parts_give_the_rule};
use std::alloc::AllocError;

/// Goes on with a step that waits.
pub(crate) fn advance(
    site: &Site<'_>,
    top: &mut Waiting,
    words: &[u64],
    buffers: &mut Buffers,
) -> Result<Outcome, AllocError>
    requires site { IsSite site.now }
    requires top { IsWaiting site.now.tree.now top.old }
    requires words { AreWordsOf site.now.tree.now words.now }
    requires room { site.now.programs.now.max_stack ≤ buffers.old.stack.room }
    ensures outcome { IfOk result
        (IsStepOutcome site.now.tree.now words.now top.old.step) }
    ensures top { IsWaiting site.now.tree.now top.new }
    ensures step { top.new.step ≡ top.old.step }
    ensures cell { top.new.cell ≡ top.old.cell }
    ensures room { buffers.new.stack.room ≡ buffers.old.stack.room }
{
    // A fold that has begun doesn't read again what it has taken.
    if top.so_far.is_none() {
        if let Some(value) = ready_value(site, top.step, words, buffers)? {
            return Ok(Outcome::Done(value));
        }
    }
    advance_parts(site, top, words, buffers)
}

/// Goes on with a step part by part.
fn advance_parts(
    site: &Site<'_>,
    top: &mut Waiting,
    words: &[u64],
    buffers: &mut Buffers,
) -> Result<Outcome, AllocError>
    requires site { IsSite site.now }
    requires top { IsWaiting site.now.tree.now top.old }
    requires words { AreWordsOf site.now.tree.now words.now }
    requires room { site.now.programs.now.max_stack ≤ buffers.old.stack.room }
    ensures outcome { IfOk result
        (IsStepOutcome site.now.tree.now words.now top.old.step) }
    ensures top { IsWaiting site.now.tree.now top.new }
    ensures step { top.new.step ≡ top.old.step }
    ensures cell { top.new.cell ≡ top.old.cell }
    ensures room { buffers.new.stack.room ≡ buffers.old.stack.room }
{
    let step = top.step;
    match step_parts(site.tables, site.tree, step) {
        RuleParts::Plain(reads) => {
            one_part(site, step, Part::Plain, reads.as_slice(), words, buffers)
        }
        RuleParts::FirstThen(first, _) if step.kid == 0 => {
            one_part(site, step, Part::First, first.as_slice(), words, buffers)
        }
        RuleParts::FirstThen(_, later) => {
            one_part(site, step, Part::Then, later.as_slice(), words, buffers)
        }
        RuleParts::FoldOver(child, start, each) => {
            advance_fold(
                site,
                top,
                *child,
                start.as_slice(),
                each.as_slice(),
                words,
                buffers,
            )
        }
    }
}

/// What a step gives for which its rule has this part alone.
fn one_part(
    site: &Site<'_>,
    step: Step,
    part: Part,
    reads: &[PartRead],
    words: &[u64],
    buffers: &mut Buffers,
) -> Result<Outcome, AllocError>
    requires site { IsSite site.now }
    requires step { IsStepOf (meant site.now.tree.now.checked) site.now.tree.now.tree step }
    requires part { IsPartFor (parts_named (meant site.now.tree.now.checked)
        (rule_at (meant site.now.tree.now.checked) step.rule)) step.kid (part_of part)
        (map read_meant reads.now) }
    requires children { EachMay (IsOfChildren (children_in site.now.tree.now step.node))
        (map read_meant reads.now) }
    requires words { AreWordsOf site.now.tree.now words.now }
    requires room { site.now.programs.now.max_stack ≤ buffers.old.stack.room }
    ensures outcome { IfOk result (IsStepOutcome site.now.tree.now words.now step) }
    ensures room { buffers.new.stack.room ≡ buffers.old.stack.room }
{
    parts_give_the_rule();
    let _nodes = site.tree.node_count();
    let _lawful = site.tree.checked().grammar();
    let part = PartReads {
        step,
        part,
        reads,
        at_hand: step.kid,
    };
    part_outcome(site, &part, Val::overflow(), words, buffers)
}

/// Goes on with a fold: its start, and then its step for each kid that it has not taken yet.
fn advance_fold(
    site: &Site<'_>,
    top: &mut Waiting,
    child: u32,
    start: &[PartRead],
    each: &[PartRead],
    words: &[u64],
    buffers: &mut Buffers,
) -> Result<Outcome, AllocError>
    requires site { IsSite site.now }
    requires top { IsWaiting site.now.tree.now top.old }
    requires children { AreOfChildren (children_in site.now.tree.now top.old.step.node)
        (fold_over child (map read_meant start.now) (map read_meant each.now)) }
    requires fold { parts_named (meant site.now.tree.now.checked)
        (rule_at (meant site.now.tree.now.checked) top.old.step.rule)
        ≡ fold_over child (map read_meant start.now) (map read_meant each.now) }
    requires words { AreWordsOf site.now.tree.now words.now }
    requires room { site.now.programs.now.max_stack ≤ buffers.old.stack.room }
    ensures outcome { IfOk result
        (IsStepOutcome site.now.tree.now words.now top.old.step) }
    ensures top { IsWaiting site.now.tree.now top.new }
    ensures step { top.new.step ≡ top.old.step }
    ensures cell { top.new.cell ≡ top.old.cell }
    ensures room { buffers.new.stack.room ≡ buffers.old.stack.room }
{
    parts_give_the_rule();
    let tree = site.tree;
    let _nodes = tree.node_count();
    let _lawful = tree.checked().grammar();
    let step = top.step;
    let mut so_far = match top.so_far {
        Some(value) => value,
        None => {
            let part = PartReads {
                step,
                part: Part::From,
                reads: start,
                at_hand: step.kid,
            };
            match part_outcome(site, &part, Val::overflow(), words, buffers)? {
                Outcome::Done(value) => value,
                Outcome::Lacks(wanted) => return Ok(Outcome::Lacks(wanted)),
            }
        }
    };
    top.so_far = Some(so_far);
    let first = top.taken;
    for kid in first..tree.kid_count(step.node, child) {
        let part = PartReads {
            step,
            part: Part::With,
            reads: each,
            at_hand: kid,
        };
        match part_outcome(site, &part, so_far, words, buffers)? {
            Outcome::Done(value) => so_far = value,
            Outcome::Lacks(wanted) => return Ok(Outcome::Lacks(wanted)),
        }
        top.so_far = Some(so_far);
        top.taken = kid + 1;
    }
    Ok(Outcome::Done(so_far))
}
