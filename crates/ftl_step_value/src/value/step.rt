//! The values of steps.
ghost use Rattle.std.specs.Prelude.{◌≡◌, ◌≤◌, length, map};
ghost use Rattle.ftl_deps.specs.reads.Meant.{meant};
ghost use Rattle.ftl_model.specs.layout.AttributeGrammar.{Occurrence, read_occurrences};
ghost use Rattle.ftl_model.specs.layout.Solves.{Instance};
ghost use Rattle.ftl_model.specs.layout.Values.{Value};
ghost use Rattle.ftl_order.specs.orders.Reads.{reads_of};
ghost use Rattle.ftl_deps.specs.parts.RuleParts.{parts_meant};
ghost use Rattle.ftl_visit.specs.step_reads.StepReads.{MayStandAt};
ghost use Rattle.ftl_step_value.specs.limits.reads.ReadTables.{AreTables, IsSound};
ghost use Rattle.ftl_order.specs.steps.Steps.{IsStepOf, target_of};
ghost use Rattle.ftl_visit.specs.rule_values.PartValues.{part_value, value_by_parts};
ghost use Rattle.ftl_step_value.specs.value.Sites.{HasEvenStep, IsSite, site_kids, site_parts};
ghost use Rattle.ftl_step_value.specs.value.StepValue.{IsCodeFor, value_of_step};

use crate::cells::step_parts;
use crate::limits::ReadTables;
use crate::value::fold::fold_value;
use crate::value::part::{Site, SitePart};
use ftl_base::{CodeStack, Val};
use ftl_deps::RuleParts;
use ftl_order::Step;
use ftl_tree::Tree;
use ftl_visit::{Part, Programs, parts_give_the_rule};

/// The value that a step gives the cell that it fills, by the values of the cells that it reads, in
/// their order.
#[inline(always)]
pub fn step_value<'a>(
    programs: &'a Programs,
    tables: &'a ReadTables,
    tree: &'a Tree<'a>,
    step: Step,
    reads: &[Val],
    stack: &mut CodeStack,
) -> Val
    requires sound { IsSound (meant tree.now.checked) }
    requires tables { AreTables (meant tree.now.checked) tables.now }
    requires step { IsStepOf (meant tree.now.checked) tree.now.tree step }
    requires code { IsCodeFor tree.now.checked programs.now }
    requires reads { length reads.now ≡ length (reads_of (meant tree.now.checked) tree.now.tree
        (target_of (meant tree.now.checked) tree.now.tree step)) }
    requires room { programs.now.max_stack ≤ stack.old.room }
    ensures value { (s : Instance → Value) → reads.now
        ≡ map s (reads_of (meant tree.now.checked) tree.now.tree
        (target_of (meant tree.now.checked) tree.now.tree step))
        → result ≡ value_of_step (meant tree.now.checked) tree.now.tree s step }
    ensures room { stack.new.room ≡ stack.old.room }
{
    parts_give_the_rule();
    let _nodes = tree.node_count();
    let _lawful = tree.checked().grammar();
    let parts = step_parts(tables, tree, step);
    let site = Site {
        programs,
        tree,
        step,
    };
    parts_value(&site, parts, reads, stack)
}

/// What a rule with these parts gives.
#[inline(always)]
fn parts_value<'a>(
    site: &Site<'a>,
    parts: &'a RuleParts,
    values: &[Val],
    stack: &mut CodeStack,
) -> Val
    requires site { IsSite site.now }
    requires parts { parts_meant parts.now ≡ site_parts site.now }
    requires may { MayStandAt site.now.tree.now site.now.step.node (parts_meant parts.now) }
    requires even { HasEvenStep (site_kids site.now) (parts_meant parts.now) }
    requires values { length values.now ≡ length (read_occurrences (parts_meant parts.now)
        (site_kids site.now) site.now.step.kid) }
    requires room { site.now.programs.now.max_stack ≤ stack.old.room }
    ensures value { (s : Occurrence → Value) → values.now
        ≡ map s (read_occurrences (parts_meant parts.now) (site_kids site.now) site.now.step.kid)
        → result ≡ value_by_parts (parts_meant parts.now)
        (part_value site.now.tree.now.checked site.now.step.rule)
        (site_kids site.now) site.now.step.kid s }
    ensures room { stack.new.room ≡ stack.old.room }
{
    let site = *site;
    let kid = site.step.kid;
    match parts {
        RuleParts::Plain(reads) => {
            let part = Part::Plain;
            let reads = reads.as_slice();
            SitePart { site, part, reads }.value(kid, values, Val::overflow(), stack)
        }
        RuleParts::FirstThen(first, _) if kid == 0 => {
            let part = Part::First;
            let reads = first.as_slice();
            SitePart { site, part, reads }.value(kid, values, Val::overflow(), stack)
        }
        RuleParts::FirstThen(_, later) => {
            let part = Part::Then;
            let reads = later.as_slice();
            SitePart { site, part, reads }.value(kid, values, Val::overflow(), stack)
        }
        RuleParts::FoldOver(child, start, each) => {
            let start = SitePart {
                site,
                part: Part::From,
                reads: start.as_slice(),
            };
            let each = SitePart {
                site,
                part: Part::With,
                reads: each.as_slice(),
            };
            let kids = site.tree.kid_count(site.step.node, *child);
            fold_value(&start, &each, kids, values, stack)
        }
    }
}
