//! What a part of a rule gives.
ghost use Rattle.std.specs.Prelude.{◌≡◌, ◌≤◌, IfOk};
ghost use Rattle.ftl_deps.specs.reads.Meant.{meant};
ghost use Rattle.ftl_demand.specs.demand.Outcomes.{IsPartOutcome};
ghost use Rattle.ftl_demand.specs.demand.Sites.{AreWordsOf, IsPartOf, IsSite};

use crate::demand::reads::gather;
use crate::demand::waiting::{Buffers, Outcome, PartReads, Site};
use ftl_base::Val;
use ftl_visit::compiled::run_code;
use ftl_visit::parts_give_the_rule;
use std::alloc::AllocError;

/// What a part gives, with what a fold has so far.
pub(crate) fn part_outcome(
    site: &Site<'_>,
    part: &PartReads<'_>,
    so_far: Val,
    words: &[u64],
    buffers: &mut Buffers,
) -> Result<Outcome, AllocError>
    requires site { IsSite site.now }
    requires part { IsPartOf site.now.tree.now part.now }
    requires words { AreWordsOf site.now.tree.now words.now }
    requires room { site.now.programs.now.max_stack ≤ buffers.old.stack.room }
    ensures outcome { IfOk result
        (IsPartOutcome site.now.tree.now words.now part.now so_far) }
    ensures room { buffers.new.stack.room ≡ buffers.old.stack.room }
{
    parts_give_the_rule();
    let step = part.step;
    let values = &mut buffers.values;
    if let Some(wanted) = gather(
        site.tree,
        step.node,
        part.at_hand,
        part.reads,
        words,
        values,
    )? {
        return Ok(Outcome::Lacks(wanted));
    }
    let code = site.programs.code(step.rule, part.part).unwrap();
    let value = run_code(&code, buffers.values.as_slice(), so_far, &mut buffers.stack);
    Ok(Outcome::Done(value))
}
