//! The pairs that were found.

ghost use Rattle.std.specs.Prelude.{◌≡◌, true, OnOk, IfOk};
ghost use Rattle.ftl_model.specs.layout.AttributeGrammar.{AttributeGrammar};
ghost use Rattle.lane_rows.specs.Matrix.{entry};
ghost use Rattle.ftl_noncircular.specs.search.Pairs.{IsPairListOf, IsLonger, IsPair};
ghost use Rattle.ftl_noncircular.specs.search.Shapes.{IsShapeOf};

use crate::search::shape::Shape;
use lane_rows::BitMatrix;
use std::alloc::{AllocError, Global};

/// An inherited and a synthesized attribute of an interface.
#[derive(Clone, Copy, Debug, PartialEq, Eq)]
pub struct Pair {
    pub interface: u32,
    pub from: u32,
    pub to: u32,
}

/// The pairs that were found, as a matrix and in the order in which they were found.
#[derive(Drop)]
pub struct PairList {
    pub has: BitMatrix,
    pub pairs: Vec<Pair>,
}

impl PairList {
    /// No pairs.
    pub(crate) fn new(alloc: Global, shape: &Shape) -> Result<PairList, AllocError>
        ghost g: { AttributeGrammar }
        requires shape { IsShapeOf g shape.now }
        ensures list { IfOk result (IsPairListOf g) }
    {
        Ok(PairList {
            has: BitMatrix::new(alloc, shape.owners.len() as u32)?,
            pairs: Vec::new(alloc),
        })
    }

    /// Adds a pair, if it is new.
    pub(crate) fn put(&mut self, shape: &Shape, pair: Pair) -> Result<(), AllocError>
        ghost g: { AttributeGrammar }
        requires shape { IsShapeOf g shape.now }
        requires pair { IsPair g pair }
        requires list { IsPairListOf g self.old }
        ensures list { OnOk result (IsPairListOf g self.new) }
        ensures longer { OnOk result (IsLonger self.old self.new) }
        ensures has { OnOk result (entry self.new.has pair.from pair.to ≡ true) }
    {
        let _few = shape.owners.len();
        if !self.has.has(pair.from, pair.to) {
            self.has.put(pair.from, pair.to);
            self.pairs.push(pair)?;
        }
        Ok(())
    }
}
