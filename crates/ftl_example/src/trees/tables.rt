//! The tables by which a tree is built.
ghost use Rattle.std.specs.Prelude.{IfOk};
ghost use Rattle.ftl_deps.specs.reads.Meant.{meant};
ghost use Rattle.ftl_example.specs.pairs.PairMeant.{pair_meant};
ghost use Rattle.ftl_example.specs.sizes.PlaceTable.{IsKnownPair};
ghost use Rattle.ftl_example.specs.trees.CountedLaws.{AreLastTables};

use crate::pairs::RefusedPair;
use crate::sizes::{least_sizes, place_sizes, ways_after};
use ftl_checked::Checked;
use std::alloc::{AllocError, Global};

/// The sizes of each interface, counted up to 513: of a least tree, of the place of a pair, and of
/// a least tree that has it.
#[derive(Drop)]
pub struct Tables {
    pub sizes: Vec<Option<u32>>,
    pub starts: Vec<Option<u32>>,
    pub ways: Vec<Option<u32>>,
}

impl Tables {
    /// The tables for a pair.
    pub fn new(alloc: Global, checked: &Checked, pair: RefusedPair) -> Result<Tables, AllocError>
        requires pair { IsKnownPair (meant checked.now) pair }
        ensures tables { IfOk result (λ t. AreLastTables (meant checked.now) (pair_meant pair) t) }
    {
        let _ = checked.grammar();
        let sizes = least_sizes(alloc, checked)?;
        let starts = place_sizes(alloc, checked, &sizes, pair)?;
        let ways = ways_after(alloc, checked, &sizes, &starts, checked.interface_count())?;
        Ok(Tables {
            sizes,
            starts,
            ways,
        })
    }
}
