//! Pairs that the walks of a class show.

ghost use Rattle.std.specs.Prelude.{◌<◌, ◌≡◌, length, OnOk};
ghost use Rattle.ftl_model.specs.layout.AttributeGrammar.{AttributeGrammar};
ghost use Rattle.ftl_noncircular.specs.search.Pairs.{AreWalksOf, IsLonger, IsNotedFrom};
ghost use Rattle.ftl_noncircular.specs.search.Pairs.{IsPairListOf};
ghost use Rattle.ftl_noncircular.specs.search.Searches.{AreNoted};
ghost use Rattle.ftl_noncircular.specs.search.Shapes.{IsShapeOf, synthesized_of, inherited_of};

use crate::search::pair_list::{Pair, PairList};
use crate::search::shape::Shape;
use crate::walks::Walks;
use std::alloc::AllocError;

/// Finds the pairs of a class's interface between which a walk of the class leads.
pub(crate) fn note(
    shape: &Shape,
    class: u32,
    walks: &Walks,
    list: &mut PairList,
) -> Result<(), AllocError>
    ghost g: { AttributeGrammar }
    requires shape { IsShapeOf g shape.now }
    requires class { class < g.class_count }
    requires walks { AreWalksOf g shape.now class walks.now }
    requires list { IsPairListOf g list.old }
    ensures list { OnOk result (IsPairListOf g list.new) }
    ensures longer { OnOk result (IsLonger list.old list.new) }
    ensures noted { OnOk result (AreNoted g shape.now.places class walks.now.edges list.new.has) }
{
    for start in 0..walks.count() {
        note_from(shape, class, walks, start, list)?;
    }
    Ok(())
}

/// Finds those whose first attribute is at this place among the inherited ones.
fn note_from(
    shape: &Shape,
    class: u32,
    walks: &Walks,
    start: usize,
    list: &mut PairList,
) -> Result<(), AllocError>
    ghost g: { AttributeGrammar }
    requires shape { IsShapeOf g shape.now }
    requires class { class < g.class_count }
    requires walks { AreWalksOf g shape.now class walks.now }
    requires start { start < length walks.now.starts }
    requires list { IsPairListOf g list.old }
    ensures list { OnOk result (IsPairListOf g list.new) }
    ensures longer { OnOk result (IsLonger list.old list.new) }
    ensures noted { OnOk result (IsNotedFrom g shape.now class walks.now list.new.has start
        (length (synthesized_of shape.now (g.interface class)))) }
{
    let interface = shape.interface_of(class);
    let from = shape.inherited_of(interface)[start];
    let targets = shape.synthesized_of(interface);
    for place in 0..targets.len() {
        let to = targets[place];
        if walks.leads(start, shape.self_vertex(to)) {
            list.put(
                shape,
                Pair {
                    interface,
                    from,
                    to,
                },
            )?;
        }
    }
    Ok(())
}
