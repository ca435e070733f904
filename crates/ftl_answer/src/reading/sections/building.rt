//! The tree of a document that is written by calls.

ghost use Rattle.std.specs.Prelude.{◌≡◌, None, IfOk};
ghost use Rattle.std.specs.List.{All};
ghost use Rattle.ftl_base.specs.Widths.{greatest_of_width};
ghost use Rattle.ftl_deps.specs.reads.Meant.{meant};
ghost use Rattle.ftl_document.specs.nodes.Found.{AreRowsOf, IsWritten};
ghost use Rattle.ftl_document.specs.syntax.Sizes.{RowIsWithin};
ghost use Rattle.ftl_document.specs.syntax.Written.{WrittenNode};
ghost use Rattle.ftl_step_value.specs.limits.faults.PlanFaults.{first_fault};
ghost use Rattle.ftl_nest_check.specs.stages.Nested.{nests_of};
ghost use Rattle.ftl_nests.specs.Nests.{outer_schedule};
ghost use Rattle.ftl_answer.specs.reading.sections.Outcomes.{IsOutcome};
ghost use Rattle.ftl_answer.specs.reading.sections.WrittenTrees.{built_tree, written_tree};

use crate::reading::sections::decision::Undecided;
use crate::reading::sections::growing::document_refused;
use crate::reading::sections::limits::within_limits;
use ftl_checked::Checked;
use ftl_document::{WrittenDocument, tree_of_written};
use ftl_nest_check::AcceptedNests;
use ftl_tree::Tree;
use std::alloc::Global;

/// The tree that the document means, where no outer stage of the schedule reads too much.
pub fn tree_of_document<'a>(
    alloc: Global,
    checked: &'a Checked,
    accepted: &AcceptedNests<'_>,
    document: &WrittenDocument<'_>,
) -> Result<Tree<'a>, Undecided>
    requires written { IsWritten document.now }
    requires within { All (RowIsWithin (greatest_of_width checked.now.width)) document.now.rows }
    ensures outcome { (node : WrittenNode) → AreRowsOf node document.now
        → IsOutcome (built_tree checked.now accepted.now.schedule node) (λ t. t.tree) result }
    ensures grammar { IfOk result (λ t. t.checked ≡ checked.now) }
    // what a plan of it asks for
    ensures fits { IfOk result (λ t. first_fault (meant checked.now)
        (outer_schedule (nests_of accepted.now.schedule)) t.tree ≡ None) }
{
    match grown_of_document(alloc, checked, document) {
        Ok(tree) => within_limits(alloc, checked, accepted, tree),
        Err(end) => Err(end),
    }
}

/// The tree that the document means.
fn grown_of_document<'a>(
    alloc: Global,
    checked: &'a Checked,
    document: &WrittenDocument<'_>,
) -> Result<Tree<'a>, Undecided>
    requires written { IsWritten document.now }
    requires within { All (RowIsWithin (greatest_of_width checked.now.width)) document.now.rows }
    ensures outcome { (node : WrittenNode) → AreRowsOf node document.now
        → IsOutcome (written_tree checked.now node) (λ t. t.tree) result }
    ensures grammar { IfOk result (λ t. t.checked ≡ checked.now) }
{
    match tree_of_written(alloc, checked, document) {
        Ok(tree) => Ok(tree),
        Err(fault) => Err(document_refused(alloc, checked, &fault)),
    }
}
