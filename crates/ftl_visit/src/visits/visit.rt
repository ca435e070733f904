//! The visit of a class.
ghost use Rattle.std.specs.Prelude.{◌≡◌, ◌<◌, length, IfOk};
ghost use Rattle.ftl_deps.specs.reads.Meant.{meant};
ghost use Rattle.ftl_visit.specs.visits.Visits.{visit_of};

use crate::visits::blocks::{add_blocks, add_locals, add_rules, add_synthesized};
use crate::visits::rule_index::RuleIndex;
use crate::visits::visit_op::VisitOps;
use ftl_schedule::PassKind;
use sqlite_items::Items;
use std::alloc::{AllocError, Global};

/// The visit of a class in a pass of this kind with this list of attributes. For `TopDown` and
/// `BottomUp` it holds rules alone.
pub fn visit_list(
    alloc: Global,
    index: &RuleIndex<'_>,
    kind: PassKind,
    attrs: &[u32],
    class: u32,
) -> Result<VisitOps, AllocError>
    requires within { class < length index.now.grammar.classes }
    ensures visit { IfOk result (λ ops. ops ≡ visit_of (meant index.now) kind attrs.now class) }
{
    let mut ops = Items::new(alloc);
    match kind {
        PassKind::TopDown | PassKind::BottomUp => add_rules(index, class, attrs, &mut ops)?,
        PassKind::InOrder => {
            add_locals(index, class, attrs, &mut ops)?;
            add_blocks(index, class, attrs, &mut ops)?;
            add_synthesized(index, class, attrs, &mut ops)?;
        }
    }
    Ok(ops)
}
