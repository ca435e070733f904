//! The pair of a schedule's first fault.
ghost use Rattle.std.specs.Prelude.{◌≡◌, ℕ, Some, None, IfOk};
ghost use Rattle.ftl_deps.specs.reads.DepRows.{dep_rows};
ghost use Rattle.ftl_deps.specs.reads.Meant.{meant};
ghost use Rattle.ftl_example.specs.declared.pairs.refused_pair.RefusedPair.{RefusedPair};
ghost use Rattle.ftl_example.specs.pairs.FirstPair.{IsPairOf};
ghost use Rattle.ftl_example.specs.pairs.FirstPlace.{IsFirstRead};
ghost use Rattle.ftl_example.specs.pairs.PairMeant.{pair_meant, where_meant};
ghost use Rattle.ftl_example.specs.sizes.PlaceTable.{IsKnownPair};
ghost use Rattle.ftl_order.specs.declared.faults.fault.VerifyFault.TheVariants.{Unordered};
ghost use Rattle.ftl_order.specs.dependencies.DepLaws.{where_of};
ghost use Rattle.ftl_order.specs.faults.FirstFault.{first_unordered};
ghost use Rattle.ftl_order.specs.orders.Pairs.{Where};
ghost use Rattle.ftl_order.specs.orders.Schedule.{placing_of};
ghost use Rattle.ftl_schedule.specs.stages.Stages.{stages_of};

use crate::pairs::first_read::{FirstRead, first_read};
use crate::pairs::part_read::placed_read;
use crate::pairs::refused_pair::{RefusedPair, WriterNode};
use ftl_checked::Checked;
use ftl_deps::{DepTable, all_rule_parts};
use ftl_order::Site;
use ftl_schedule::places::Placed;
use ftl_schedule::read_of;
use std::alloc::{AllocError, Global};

/// The pair of the first fault of a schedule, where that is a pair.
pub(crate) fn first_pair(
    alloc: Global,
    checked: &Checked,
    deps: &DepTable,
    placed: &Placed,
) -> Result<Option<RefusedPair>, AllocError>
    requires table { deps.now ≡ dep_rows (meant checked.now) }
    ensures pair { (reader writer : ℕ)
        → first_unordered (meant checked.now) (placing_of (stages_of placed.now))
        ≡ Some (Unordered reader writer)
        → IfOk result (λ o. (p : RefusedPair) × (o ≡ Some p) × IsKnownPair (meant checked.now) p
        × IsPairOf (meant checked.now) (placing_of (stages_of placed.now)) reader writer
        (pair_meant p)) }
{
    match first_read(checked, deps, placed) {
        Some(found) => Ok(Some(pair_of(alloc, checked, deps, placed, found)?)),
        None => Ok(None),
    }
}

// The pair of the read that was found.
fn pair_of(
    alloc: Global,
    checked: &Checked,
    deps: &DepTable,
    placed: &Placed,
    found: FirstRead,
) -> Result<RefusedPair, AllocError>
    requires table { deps.now ≡ dep_rows (meant checked.now) }
    requires found { IsFirstRead (meant checked.now) (placing_of (stages_of placed.now))
        found.reader found.place found.writer }
    ensures known { IfOk result (IsKnownPair (meant checked.now)) }
    ensures pair { IfOk result (λ p. IsPairOf (meant checked.now)
        (placing_of (stages_of placed.now)) found.reader found.writer (pair_meant p)) }
{
    let _ = checked.grammar();
    let parts = all_rule_parts(alloc, checked)?;
    let read = placed_read(&parts.as_slice()[found.reader as usize], found.place);
    let site = read_of(checked, deps, found.reader, found.place).site;
    Ok(RefusedPair {
        reader: checked.rule(found.reader),
        part: read.part,
        over: read.over,
        read: read.read,
        writer: checked.rule(found.writer),
        runs_at: writer_node(site),
    })
}

/// Where the writers of what is read at a site run.
pub fn writer_node(site: Site) -> WriterNode
    ensures node { (x : Where) → where_of site ≡ Some x → where_meant result ≡ x }
{
    match site {
        Site::Input | Site::SameVisit => WriterNode::Same,
        Site::Above => WriterNode::Parent,
        Site::Below => WriterNode::Kid,
    }
}
