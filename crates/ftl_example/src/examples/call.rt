//! The example of a refused schedule.
ghost use Rattle.std.specs.Prelude.{◌≡◌, ◌≤◌, ℕ, [], Err, None, Some, IfOk};
ghost use Rattle.ftl_deps.specs.reads.DepRows.{dep_rows};
ghost use Rattle.ftl_deps.specs.reads.Meant.{meant};
ghost use Rattle.ftl_example.specs.declared.trees.fault.ExampleFault.TheVariants as fault;
ghost use Rattle.ftl_example.specs.examples.Numbered.{IsFaultPair, IsNumberedExample};
ghost use Rattle.ftl_example.specs.pairs.PairMeant.{pair_meant};
ghost use Rattle.ftl_example.specs.shows.Examples.{AllAreLarger, NoneShows};
ghost use Rattle.ftl_example.specs.sizes.PlaceTable.{IsKnownPair};
ghost use Rattle.ftl_step_value.specs.limits.reads.ReadTables.{IsSound};
ghost use Rattle.ftl_model.specs.layout.Tree.{size};
ghost use Rattle.ftl_order.specs.declared.faults.fault.VerifyFault.TheVariants.{Unordered};
ghost use Rattle.ftl_order.specs.faults.FaultLaws.{AreComputed};
ghost use Rattle.ftl_order.specs.faults.FirstFault.{first_fault};
ghost use Rattle.ftl_order.specs.orders.Ordered.{IsOrderedPair};
ghost use Rattle.ftl_order.specs.orders.Pairs.{IsPair, Pair};
ghost use Rattle.ftl_order.specs.orders.Schedule.{EachStandsOnce, placing_of};
ghost use Rattle.ftl_schedule.specs.stages.PassLimits.{IsWithinPassLimits};
ghost use Rattle.ftl_schedule.specs.stages.Stages.{stages_of};

use crate::examples::numbered::numbered_order;
use crate::examples::placed_copy::placed_copy;
use crate::examples::types::Example;
use crate::pairs::{RefusedPair, first_pair};
use crate::trees::{ExampleFault, least_tree};
use ftl_checked::Checked;
use ftl_deps::DepTable;
use ftl_schedule::Schedule;
use ftl_schedule::places::Placed;
use ftl_step_value::limits::is_sound;
use std::alloc::Global;

/// An example of the pair by which a schedule is refused: a least tree that shows it, and an order
/// of its computed instances that the schedule allows, though the reader doesn't stand after the
/// writer.
pub fn example<'a>(
    alloc: Global,
    checked: &'a Checked,
    deps: &DepTable,
    schedule: &Schedule,
) -> Result<Example<'a>, ExampleFault>
    requires table { deps.now ≡ dep_rows (meant checked.now) }
    requires computed { AreComputed (meant checked.now) (stages_of schedule.now) }
    requires limits { IsWithinPassLimits (stages_of schedule.now) }
    requires pair { (reader writer : ℕ)
        × (first_fault (meant checked.now) (stages_of schedule.now)
        ≡ Some (Unordered reader writer)) }
    // on success
    ensures grammar { IfOk result (λ e. e.tree.checked ≡ checked.now) }
    ensures example { IfOk result (λ e. (pair : Pair)
        × IsFaultPair (meant checked.now) (stages_of schedule.now) pair
        × IsNumberedExample (meant checked.now) (stages_of schedule.now) pair e.tree.tree
        e.reader e.writer e.order) }
    ensures few { IfOk result (λ e. size e.tree.tree ≤ 512) }
    // on refusal
    ensures no_tree { result ≡ Err fault.NoTree → (pair : Pair)
        × IsFaultPair (meant checked.now) (stages_of schedule.now) pair
        × NoneShows (meant checked.now) pair }
    ensures too_large { result ≡ Err fault.TooLarge → (pair : Pair)
        × IsFaultPair (meant checked.now) (stages_of schedule.now) pair
        × AllAreLarger (meant checked.now) pair 512 }
{
    is_sound(checked);
    let placed = placed_copy(alloc, checked, schedule)?;
    let pair = first_pair(alloc, checked, deps, &placed)?.unwrap();
    example_of(alloc, checked, &placed, pair)
}

// An example of a pair that the schedule leaves unordered.
fn example_of<'a>(
    alloc: Global,
    checked: &'a Checked,
    placed: &Placed,
    pair: RefusedPair,
) -> Result<Example<'a>, ExampleFault>
    requires sound { IsSound (meant checked.now) }
    requires once { EachStandsOnce (meant checked.now) (stages_of placed.now) }
    requires known { IsKnownPair (meant checked.now) pair }
    requires pair { IsPair (meant checked.now) (pair_meant pair) }
    requires unordered { IsOrderedPair (meant checked.now) (placing_of (stages_of placed.now))
        (pair_meant pair) → ⊥ }
    ensures grammar { IfOk result (λ e. e.tree.checked ≡ checked.now) }
    ensures example { IfOk result (λ e. IsNumberedExample (meant checked.now)
        (stages_of placed.now) (pair_meant pair) e.tree.tree e.reader e.writer e.order) }
    ensures few { IfOk result (λ e. size e.tree.tree ≤ 512) }
    ensures no_tree { result ≡ Err fault.NoTree → NoneShows (meant checked.now) (pair_meant pair) }
    ensures too_large { result ≡ Err fault.TooLarge
        → AllAreLarger (meant checked.now) (pair_meant pair) 512 }
{
    let tree = least_tree(alloc, checked, pair)?;
    let found = numbered_order(alloc, &tree, placed, pair)?;
    Ok(Example {
        tree,
        reader: found.reader,
        writer: found.writer,
        order: found.order,
    })
}
