//! The least tree that shows a pair.
ghost use Rattle.std.specs.Prelude.{◌≡◌, ℕ, Err, IfOk};
ghost use Rattle.ftl_deps.specs.reads.Meant.{meant};
ghost use Rattle.ftl_order.specs.orders.Pairs.{IsPair};
ghost use Rattle.ftl_example.specs.pairs.PairMeant.{pair_meant};
ghost use Rattle.ftl_example.specs.shows.Examples.{AllAreLarger, NoneShows};
ghost use Rattle.ftl_example.specs.sizes.PlaceTable.{IsKnownPair};
ghost use Rattle.ftl_example.specs.trees.LeastShown.{IsLeastShown};
ghost use Rattle.ftl_example.specs.declared.trees.fault.ExampleFault.TheVariants as fault;

use crate::pairs::RefusedPair;
use crate::sizes::size_at;
use crate::trees::building::example_tree;
use crate::trees::fault::ExampleFault;
use crate::trees::tables::Tables;
use ftl_checked::Checked;
use ftl_tree::Tree;
use std::alloc::Global;

/// A least tree that shows the pair, with every input 0; or that no tree does, or none of at most
/// 512 nodes.
pub fn least_tree<'a>(
    alloc: Global,
    checked: &'a Checked,
    pair: RefusedPair,
) -> Result<Tree<'a>, ExampleFault>
    requires known { IsKnownPair (meant checked.now) pair }
    requires pair { IsPair (meant checked.now) (pair_meant pair) }
    ensures grammar { IfOk result (λ r. r.checked ≡ checked.now) }
    ensures tree { IfOk result
        (λ r. IsLeastShown (meant checked.now) (pair_meant pair) 512 r.tree) }
    ensures no_tree { result ≡ Err fault.NoTree → NoneShows (meant checked.now) (pair_meant pair) }
    ensures too_large { result ≡ Err fault.TooLarge
        → AllAreLarger (meant checked.now) (pair_meant pair) 512 }
{
    let _ = checked.grammar();
    let tables = Tables::new(alloc, checked, pair)?;
    match size_at(&tables.ways, checked.root()) {
        None => Err(ExampleFault::NoTree),
        Some(nodes) if nodes > 512 => Err(ExampleFault::TooLarge),
        Some(nodes) => Ok(example_tree(alloc, checked, pair, &tables, nodes)?),
    }
}
