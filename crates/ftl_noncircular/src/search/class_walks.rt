//! The walks of all classes along their reads.

ghost use Rattle.std.specs.Prelude.{◌≡◌, ◌<◌, IfOk};
ghost use Rattle.ftl_deps.specs.reads.DepRows.{dep_rows};
ghost use Rattle.ftl_deps.specs.reads.Meant.{meant};
ghost use Rattle.ftl_model.specs.layout.AttributeGrammar.{AttributeGrammar};
ghost use Rattle.ftl_noncircular.specs.search.Pairs.{AreAllWalks, StartAtPorts};
ghost use Rattle.ftl_noncircular.specs.search.Shapes.{IsShapeOf};

use crate::search::read_edges::read_edges;
use crate::search::shape::Shape;
use crate::walks::Walks;
use ftl_checked::Checked;
use ftl_deps::DepTable;
use std::alloc::{AllocError, Global};

/// The walks of each class from the inherited attributes of its interface.
pub(crate) fn class_walks(
    alloc: Global,
    checked: &Checked,
    deps: &DepTable,
    shape: &Shape,
) -> Result<Vec<Walks>, AllocError>
    ghost g: { AttributeGrammar }
    requires meant { g ≡ meant checked.now }
    requires table { deps.now ≡ dep_rows g }
    requires shape { IsShapeOf g shape.now }
    ensures walks { IfOk result (λ classes. AreAllWalks g shape.now classes.items) }
{
    let mut classes = Vec::new(alloc);
    for class in 0..shape.kids.len() {
        let class = class as u32;
        let edges = read_edges(alloc, checked, deps, shape, class, true)?;
        let starts = starts_of(alloc, shape, class)?;
        classes.push(Walks::new(alloc, edges, starts)?)?;
    }
    Ok(classes)
}

/// The numbers of the inherited attributes of a class's interface.
fn starts_of(alloc: Global, shape: &Shape, class: u32) -> Result<Vec<u32>, AllocError>
    ghost g: { AttributeGrammar }
    requires shape { IsShapeOf g shape.now }
    requires class { class < g.class_count }
    ensures starts { IfOk result (λ starts. StartAtPorts g shape.now class starts.items) }
{
    let attrs = shape.inherited_of(shape.interface_of(class));
    let mut starts = Vec::new(alloc);
    for attr in attrs {
        starts.push(shape.self_vertex(*attr))?;
    }
    Ok(starts)
}
