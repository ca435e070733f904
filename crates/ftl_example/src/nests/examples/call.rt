//! The example of a refused schedule with nests.
ghost use Rattle.std.specs.Prelude.{◌≡◌, ◌≤◌, ℕ, Err, Some, IfOk};
ghost use Rattle.ftl_deps.specs.reads.DepRows.{dep_rows};
ghost use Rattle.ftl_deps.specs.reads.Meant.{meant};
ghost use Rattle.ftl_example.specs.declared.trees.fault.ExampleFault.TheVariants as fault;
ghost use Rattle.ftl_example.specs.pairs.PairMeant.{pair_meant};
ghost use Rattle.ftl_example.specs.shows.Examples.{AllAreLarger, NoneShows};
ghost use Rattle.ftl_example.specs.sizes.PlaceTable.{IsKnownPair};
ghost use Rattle.ftl_step_value.specs.limits.reads.ReadTables.{IsSound};
ghost use Rattle.ftl_model.specs.layout.Tree.{size};
ghost use Rattle.ftl_nest_check.specs.check.NestFault.{first_nest_fault};
ghost use Rattle.ftl_nest_check.specs.stages.Nested.{AreNestsKept, IsWithinNestLimits, nests_of};
ghost use Rattle.ftl_example.specs.nests.examples.NestExamples.{IsNumberedNestExample};
ghost use Rattle.ftl_example.specs.nests.pairs.NestPair.{IsNestFaultPair, IsNestOrderedPair};
ghost use Rattle.ftl_nests.specs.Nests.{AreSidesKept, nest_placing_of, outer_schedule};
ghost use Rattle.ftl_order.specs.declared.faults.fault.VerifyFault.TheVariants.{Unordered};
ghost use Rattle.ftl_order.specs.faults.FaultLaws.{AreComputed};
ghost use Rattle.ftl_order.specs.orders.Pairs.{IsPair, Pair};
ghost use Rattle.ftl_order.specs.orders.Schedule.{EachStandsOnce};

use crate::examples::Example;
use crate::nests::examples::numbered::numbered_order;
use crate::nests::pairs::first_pair::first_pair;
use crate::pairs::RefusedPair;
use crate::trees::{ExampleFault, least_tree};
use ftl_checked::Checked;
use ftl_deps::DepTable;
use ftl_nest_check::places::PlacedNests;
use ftl_step_value::limits::is_sound;
use std::alloc::Global;

/// An example of the pair by which a schedule with nests is refused: a least tree that shows it,
/// and an order of its computed instances that the schedule allows, though the reader doesn't stand
/// after the writer.
pub fn nest_example<'a>(
    alloc: Global,
    checked: &'a Checked,
    deps: &DepTable,
    placed: &PlacedNests,
) -> Result<Example<'a>, ExampleFault>
    requires table { deps.now ≡ dep_rows (meant checked.now) }
    requires computed { AreComputed (meant checked.now) (outer_schedule (nests_of placed.now)) }
    requires limits { IsWithinNestLimits (nests_of placed.now) }
    requires kept { AreNestsKept (meant checked.now) (nests_of placed.now) }
    requires pair { (reader writer : ℕ)
        × (first_nest_fault (meant checked.now) (nests_of placed.now)
        ≡ Some (Unordered reader writer)) }
    // on success
    ensures grammar { IfOk result (λ e. e.tree.checked ≡ checked.now) }
    ensures example { IfOk result (λ e. (pair : Pair)
        × IsNestFaultPair (meant checked.now) (nests_of placed.now) pair
        × IsNumberedNestExample (meant checked.now) (nests_of placed.now) pair e.tree.tree
        e.reader e.writer e.order) }
    ensures few { IfOk result (λ e. size e.tree.tree ≤ 512) }
    // on refusal
    ensures no_tree { result ≡ Err fault.NoTree → (pair : Pair)
        × IsNestFaultPair (meant checked.now) (nests_of placed.now) pair
        × NoneShows (meant checked.now) pair }
    ensures too_large { result ≡ Err fault.TooLarge → (pair : Pair)
        × IsNestFaultPair (meant checked.now) (nests_of placed.now) pair
        × AllAreLarger (meant checked.now) pair 512 }
{
    is_sound(checked);
    let pair = first_pair(alloc, checked, deps, placed)?.unwrap();
    example_of(alloc, checked, placed, pair)
}

// An example of a pair that the schedule leaves unordered.
fn example_of<'a>(
    alloc: Global,
    checked: &'a Checked,
    placed: &PlacedNests,
    pair: RefusedPair,
) -> Result<Example<'a>, ExampleFault>
    requires sound { IsSound (meant checked.now) }
    requires once { EachStandsOnce (meant checked.now) (outer_schedule (nests_of placed.now)) }
    requires sides { AreSidesKept (meant checked.now) (nests_of placed.now) }
    requires known { IsKnownPair (meant checked.now) pair }
    requires pair { IsPair (meant checked.now) (pair_meant pair) }
    requires unordered { IsNestOrderedPair (meant checked.now)
        (nest_placing_of (nests_of placed.now)) (pair_meant pair) → ⊥ }
    ensures grammar { IfOk result (λ e. e.tree.checked ≡ checked.now) }
    ensures example { IfOk result (λ e. IsNumberedNestExample (meant checked.now)
        (nests_of placed.now) (pair_meant pair) e.tree.tree e.reader e.writer e.order) }
    ensures few { IfOk result (λ e. size e.tree.tree ≤ 512) }
    ensures no_tree { result ≡ Err fault.NoTree → NoneShows (meant checked.now) (pair_meant pair) }
    ensures too_large { result ≡ Err fault.TooLarge
        → AllAreLarger (meant checked.now) (pair_meant pair) 512 }
{
    let tree = least_tree(alloc, checked, pair)?;
    let found = numbered_order(alloc, &tree, placed, pair)?;
    Ok(Example {
        tree,
        reader: found.reader,
        writer: found.writer,
        order: found.order,
    })
}
