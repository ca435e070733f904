//! The tree that is built for a pair.
ghost use Rattle.std.specs.Prelude.{◌≡◌, ◌≤◌, Some, IfOk};
ghost use Rattle.ftl_deps.specs.reads.Meant.{meant};
ghost use Rattle.ftl_order.specs.orders.Pairs.{IsPair};
ghost use Rattle.ftl_example.specs.pairs.PairMeant.{pair_meant};
ghost use Rattle.ftl_example.specs.sizes.Place.{example_size};
ghost use Rattle.ftl_example.specs.sizes.PlaceTable.{IsKnownPair};
ghost use Rattle.ftl_example.specs.trees.CountedLaws.{AreLastTables, example_tree};

use crate::pairs::RefusedPair;
use crate::trees::put::put_tree;
use crate::trees::site::Site;
use crate::trees::tables::Tables;
use crate::trees::want::Want;
use ftl_checked::Checked;
use ftl_tree::{Place, Tree, bare_tree};
use std::alloc::{AllocError, Global};

/// The tree that is built for a pair whose least example has so many nodes, 512 at most.
pub(crate) fn example_tree<'a>(
    alloc: Global,
    checked: &'a Checked,
    pair: RefusedPair,
    tables: &Tables,
    nodes: u32,
) -> Result<Tree<'a>, AllocError>
    requires known { IsKnownPair (meant checked.now) pair }
    requires pair { IsPair (meant checked.now) (pair_meant pair) }
    requires tables { AreLastTables (meant checked.now) (pair_meant pair) tables.now }
    requires size { example_size (meant checked.now) (pair_meant pair) ≡ Some nodes }
    requires few { nodes ≤ 512 }
    ensures tree { IfOk result (λ r. r ≡ record {
      checked = checked.now;
      tree = example_tree (meant checked.now) (pair_meant pair) nodes;
    }) }
{
    let _ = checked.grammar();
    let mut rows = Vec::with_capacity(alloc, nodes as usize)?;
    let root = Site {
        want: Want::WayTree,
        interface: checked.root(),
        parent: 0,
        place: Place { child: 0, kid: 0 },
    };
    put_tree(&mut rows, checked, pair, tables, root, nodes)?;
    bare_tree(alloc, checked, &rows)
}
