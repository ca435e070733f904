//! The pair of the first fault of a schedule with nests.
ghost use Rattle.std.specs.Prelude.{◌≡◌, ℕ, Some, IfOk};
ghost use Rattle.ftl_deps.specs.reads.DepRows.{dep_rows};
ghost use Rattle.ftl_deps.specs.reads.Meant.{meant};
ghost use Rattle.ftl_example.specs.declared.pairs.refused_pair.RefusedPair.{RefusedPair};
ghost use Rattle.ftl_example.specs.pairs.PairMeant.{pair_meant};
ghost use Rattle.ftl_example.specs.sizes.PlaceTable.{IsKnownPair};
ghost use Rattle.ftl_nest_check.specs.stages.Nested.{nests_of};
ghost use Rattle.ftl_example.specs.nests.pairs.FirstRefused.{IsFirstRead};
ghost use Rattle.ftl_example.specs.nests.pairs.NestPair.{IsNestPairOf};
ghost use Rattle.ftl_nests.specs.Nests.{nest_placing_of};
ghost use Rattle.ftl_order.specs.declared.faults.fault.VerifyFault.TheVariants.{Unordered};
ghost use Rattle.ftl_regions.specs.pairs.NestReads.{first_refused};

use crate::nests::pairs::first_read::first_read;
use crate::pairs::{FirstRead, RefusedPair, placed_read, writer_node};
use ftl_checked::Checked;
use ftl_deps::{DepTable, all_rule_parts};
use ftl_nest_check::places::PlacedNests;
use ftl_schedule::read_of;
use std::alloc::{AllocError, Global};

/// The pair of the first fault of a schedule with nests, where that is a pair.
pub fn first_pair(
    alloc: Global,
    checked: &Checked,
    deps: &DepTable,
    placed: &PlacedNests,
) -> Result<Option<RefusedPair>, AllocError>
    requires table { deps.now ≡ dep_rows (meant checked.now) }
    ensures pair { (reader writer : ℕ)
        → first_refused (meant checked.now) (nest_placing_of (nests_of placed.now))
        ≡ Some (Unordered reader writer)
        → IfOk result (λ o. (p : RefusedPair) × (o ≡ Some p) × IsKnownPair (meant checked.now) p
        × IsNestPairOf (meant checked.now) (nest_placing_of (nests_of placed.now)) reader writer
        (pair_meant p)) }
{
    match first_read(checked, deps, placed) {
        Some(found) => Ok(Some(pair_of(alloc, checked, deps, placed, found)?)),
        None => Ok(None),
    }
}

// The pair of the read that was found.
fn pair_of(
    alloc: Global,
    checked: &Checked,
    deps: &DepTable,
    placed: &PlacedNests,
    found: FirstRead,
) -> Result<RefusedPair, AllocError>
    requires table { deps.now ≡ dep_rows (meant checked.now) }
    requires found { IsFirstRead (meant checked.now) (nest_placing_of (nests_of placed.now))
        found.reader found.place found.writer }
    ensures known { IfOk result (IsKnownPair (meant checked.now)) }
    ensures pair { IfOk result (λ p. IsNestPairOf (meant checked.now)
        (nest_placing_of (nests_of placed.now)) found.reader found.writer (pair_meant p)) }
{
    let _ = checked.grammar();
    let parts = all_rule_parts(alloc, checked)?;
    let read = placed_read(&parts.as_slice()[found.reader as usize], found.place);
    let site = read_of(checked, deps, found.reader, found.place).site;
    Ok(RefusedPair {
        reader: checked.rule(found.reader),
        part: read.part,
        over: read.over,
        read: read.read,
        writer: checked.rule(found.writer),
        runs_at: writer_node(site),
    })
}
