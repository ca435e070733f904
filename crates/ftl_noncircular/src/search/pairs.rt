//! The pairs of a grammar.

ghost use Rattle.std.specs.Prelude.{◌≡◌, ◌<◌, ◌+◌, length, IfOk, OnOk};
ghost use Rattle.ftl_model.specs.layout.AttributeGrammar.{AttributeGrammar};
ghost use Rattle.lane_rows.specs.Matrix.{entry};
ghost use Rattle.ftl_noncircular.specs.grammars.Noncircular.{IsClosed, family_of};
ghost use Rattle.ftl_noncircular.specs.search.Pairs.{AreAllWalks, AreSearchedTo, IsPairListOf};
ghost use Rattle.ftl_noncircular.specs.search.Shapes.{IsShapeOf};

use crate::search::notes::note;
use crate::search::pair_list::PairList;
use crate::search::puts::put_pair;
use crate::search::shape::Shape;
use crate::walks::Walks;
use std::alloc::{AllocError, Global};

/// All pairs, from the walks of the classes along their reads.
pub(crate) fn find_pairs(
    alloc: Global,
    shape: &Shape,
    classes: Vec<Walks>,
) -> Result<PairList, AllocError>
    ghost g: { AttributeGrammar }
    requires shape { IsShapeOf g shape.now }
    requires walks { AreAllWalks g shape.now classes.items }
    ensures list { IfOk result (IsPairListOf g) }
    ensures closed { IfOk result (λ list. IsClosed g (family_of (entry list.has))) }
{
    let mut classes = classes;
    let mut list = PairList::new(alloc, shape)?;
    note_all(shape, &classes, &mut list)?;
    put_all(shape, &mut classes, &mut list)?;
    Ok(list)
}

/// Finds the pairs that the classes show by their reads alone.
fn note_all(shape: &Shape, classes: &[Walks], list: &mut PairList) -> Result<(), AllocError>
    ghost g: { AttributeGrammar }
    requires shape { IsShapeOf g shape.now }
    requires walks { AreAllWalks g shape.now classes.now }
    requires list { IsPairListOf g list.old }
    ensures searched { OnOk result (AreSearchedTo g shape.now classes.now list.new 0) }
{
    for class in 0..classes.len() {
        note(shape, class as u32, &classes[class], list)?;
    }
    Ok(())
}

/// Puts each pair of the list into all classes. The list grows while this goes on.
fn put_all(shape: &Shape, classes: &mut [Walks], list: &mut PairList) -> Result<(), AllocError>
    ghost g: { AttributeGrammar }
    requires shape { IsShapeOf g shape.now }
    requires searched { AreSearchedTo g shape.now classes.old list.old 0 }
    ensures searched { OnOk result (AreSearchedTo g shape.now classes.new list.new
        (length list.new.pairs.items)) }
{
    let mut next = 0;
    while next < list.pairs.len() {
        put_everywhere(shape, next, classes, list)?;
        next += 1;
    }
    Ok(())
}

/// Puts the pair at this place of the list into all classes.
fn put_everywhere(
    shape: &Shape,
    next: usize,
    classes: &mut [Walks],
    list: &mut PairList,
) -> Result<(), AllocError>
    ghost g: { AttributeGrammar }
    requires shape { IsShapeOf g shape.now }
    requires searched { AreSearchedTo g shape.now classes.old list.old next }
    requires next { next < length list.old.pairs.items }
    ensures searched { OnOk result (AreSearchedTo g shape.now classes.new list.new (next + 1)) }
{
    let pair = list.pairs[next];
    for class in 0..classes.len() {
        put_pair(shape, class as u32, pair, &mut classes[class], list)?;
    }
    Ok(())
}
