//! What explains the pair of a schedule's first fault.

ghost use Rattle.std.specs.Prelude.{◌≡◌, IfOk};
ghost use Rattle.ftl_answer.specs.answers.Explanations.{IsExplanation};
ghost use Rattle.ftl_deps.specs.reads.DepRows.{dep_rows};
ghost use Rattle.ftl_deps.specs.reads.Meant.{meant};
ghost use Rattle.ftl_nest_check.specs.check.NestAccepted.{MayBeVerified};
ghost use Rattle.ftl_nest_check.specs.stages.Nested.{nests_of};
ghost use Rattle.ftl_answer.specs.reading.requests.Explained.{HasFaultPair};

use crate::print_example;
use ftl_checked::Checked;
use ftl_deps::DepTable;
use ftl_example::nests::examples::nest_example;
use ftl_example::trees::ExampleFault;
use ftl_nest_check::PlacedNests;
use std::alloc::{AllocError, Global};

/// The text of an example; or that no tree shows the pair, or that those that do are too large.
pub(crate) fn explanation(
    alloc: Global,
    checked: &Checked,
    deps: &DepTable,
    placed: &PlacedNests,
) -> Result<Vec<u8>, AllocError>
    requires table { deps.now ≡ dep_rows (meant checked.now) }
    requires may { MayBeVerified (meant checked.now) (nests_of placed.now) }
    requires pair { HasFaultPair checked.now placed.now }
    ensures text { IfOk result (λ v. IsExplanation checked.now placed.now v.items) }
{
    match nest_example(alloc, checked, deps, placed) {
        Ok(found) => print_example(
            alloc,
            &found.tree,
            found.reader,
            found.writer,
            found.order.as_slice(),
        ),
        Err(ExampleFault::NoTree) => Vec::from_slice(alloc, b"no tree shows the pair\n"),
        Err(ExampleFault::TooLarge) => Vec::from_slice(
            alloc,
            b"each tree that shows the pair has more than 512 nodes\n",
        ),
        Err(ExampleFault::OutOfMemory) => Err(AllocError),
    }
}
