//! The first circular vertex of a class.

ghost use Rattle.std.specs.Prelude.{◌≡◌, ◌<◌, ◌↔◌, true, false, length, IfSome, IfNone};
ghost use Rattle.ftl_model.specs.layout.AttributeGrammar.{AttributeGrammar};
ghost use Rattle.ftl_order.specs.orders.Lawful.{OfClass};
ghost use Rattle.lane_rows.specs.Matrix.{entry};
ghost use Rattle.ftl_noncircular.specs.grammars.Noncircular.{IsClosed, family_of};
ghost use Rattle.ftl_noncircular.specs.search.Circles.{vertex_at};
ghost use Rattle.ftl_noncircular.specs.search.Closing.{HasNone, HoldsOfNone, IsChildCircle};
ghost use Rattle.ftl_noncircular.specs.search.Closing.{IsFirstIn, IsLeast, IsOwnCircle, TellsWalks};
ghost use Rattle.ftl_noncircular.specs.search.Numbers.{vertex_count};
ghost use Rattle.ftl_noncircular.specs.search.Pairs.{IsPairListOf};
ghost use Rattle.ftl_noncircular.specs.search.Searches.{HasReads};
ghost use Rattle.ftl_noncircular.specs.search.Shapes.{IsShapeOf};

use crate::search::pair_edges::add_pairs;
use crate::search::pair_list::PairList;
use crate::search::shape::{Shape, Vertex};
use lane_rows::BitMatrix;

/// The first circular vertex of a class, from the edges of all its reads and of those that are not
/// by `prev`.
pub(crate) fn class_circle(
    shape: &Shape,
    class: u32,
    list: &PairList,
    all: BitMatrix,
    without: BitMatrix,
) -> Option<Vertex>
    ghost g: { AttributeGrammar }
    requires shape { IsShapeOf g shape.now }
    requires class { class < g.class_count }
    requires list { IsPairListOf g list.now }
    requires closed { IsClosed g (family_of (entry list.now.has)) }
    requires all { HasReads g shape.now.places true class all }
    requires without { HasReads g shape.now.places false class without }
    ensures some { IfSome result (λ v. IsFirstIn g class (vertex_at v.child v.attr)) }
    ensures none { IfNone result (HasNone g class) }
{
    let mut all = all;
    let mut without = without;
    add_pairs(shape, class, list, &mut all);
    all.close();
    add_pairs(shape, class, list, &mut without);
    without.close();
    first_circle(shape, class, &all, &without)
}

/// The first vertex of a class from which a walk leads to itself.
fn first_circle(shape: &Shape, class: u32, all: &BitMatrix, without: &BitMatrix) -> Option<Vertex>
    ghost g: { AttributeGrammar }
    requires shape { IsShapeOf g shape.now }
    requires class { class < g.class_count }
    requires all_size { length all.now ≡ vertex_count g class }
    requires all { TellsWalks g shape.now.places true class all.now }
    requires without_size { length without.now ≡ vertex_count g class }
    requires without { TellsWalks g shape.now.places false class without.now }
    ensures some { IfSome result (λ v. IsFirstIn g class (vertex_at v.child v.attr)) }
    ensures none { IfNone result (HasNone g class) }
{
    if let Some(attr) = own_circle(shape, class, all) {
        return Some(Vertex { child: None, attr });
    }
    for child in 0..shape.kids_of(class).len() {
        let child = child as u32;
        if let Some(attr) = child_circle(shape, class, child, all, without) {
            return Some(Vertex {
                child: Some(child),
                attr,
            });
        }
    }
    None
}

/// The first attribute of the node at which a walk closes.
fn own_circle(shape: &Shape, class: u32, all: &BitMatrix) -> Option<u32>
    ghost g: { AttributeGrammar }
    requires shape { IsShapeOf g shape.now }
    requires class { class < g.class_count }
    requires size { length all.now ≡ vertex_count g class }
    ensures some { IfSome result (IsLeast (IsOwnCircle g shape.now.places class all.now)) }
    ensures none { IfNone result (HoldsOfNone (IsOwnCircle g shape.now.places class all.now)) }
{
    for attr in 0..shape.owners.len() {
        let attr = attr as u32;
        if is_own_circle(shape, class, attr, all) {
            return Some(attr);
        }
    }
    None
}

/// The first attribute of the kids in a child at which a walk closes.
fn child_circle(
    shape: &Shape,
    class: u32,
    child: u32,
    all: &BitMatrix,
    without: &BitMatrix,
) -> Option<u32>
    ghost g: { AttributeGrammar }
    requires shape { IsShapeOf g shape.now }
    requires class { class < g.class_count }
    requires child { child < g.child_count class }
    requires all { length all.now ≡ vertex_count g class }
    requires without { length without.now ≡ vertex_count g class }
    ensures some { IfSome result (IsLeast
        (IsChildCircle g shape.now.places class child all.now without.now)) }
    ensures none { IfNone result (HoldsOfNone
        (IsChildCircle g shape.now.places class child all.now without.now)) }
{
    for attr in 0..shape.owners.len() {
        let attr = attr as u32;
        if is_child_circle(shape, class, child, attr, all, without) {
            return Some(attr);
        }
    }
    None
}

/// Whether a walk closes at an attribute of the node.
fn is_own_circle(shape: &Shape, class: u32, attr: u32, all: &BitMatrix) -> bool
    ghost g: { AttributeGrammar }
    requires shape { IsShapeOf g shape.now }
    requires class { class < g.class_count }
    requires attr { attr < g.attribute_count }
    requires size { length all.now ≡ vertex_count g class }
    ensures circle { (result ≡ true) ↔ IsOwnCircle g shape.now.places class all.now attr }
{
    if !is_of_class(shape, class, attr) {
        return false;
    }
    let vertex = shape.self_vertex(attr);
    all.has(vertex, vertex)
}

/// Whether a walk closes at an attribute of the kids in a child: one without a read by `prev`, or
/// any where the child is single.
fn is_child_circle(
    shape: &Shape,
    class: u32,
    child: u32,
    attr: u32,
    all: &BitMatrix,
    without: &BitMatrix,
) -> bool
    ghost g: { AttributeGrammar }
    requires shape { IsShapeOf g shape.now }
    requires class { class < g.class_count }
    requires child { child < g.child_count class }
    requires attr { attr < g.attribute_count }
    requires all { length all.now ≡ vertex_count g class }
    requires without { length without.now ≡ vertex_count g class }
    ensures circle { (result ≡ true)
        ↔ IsChildCircle g shape.now.places class child all.now without.now attr }
{
    let kid = shape.kids_of(class)[child as usize];
    if !shape.is_owner(attr, false, kid.interface) {
        return false;
    }
    let vertex = shape.child_vertex(child, attr);
    without.has(vertex, vertex) | (!kid.many & all.has(vertex, vertex))
}

/// Whether the attribute is one of the class.
fn is_of_class(shape: &Shape, class: u32, attr: u32) -> bool
    ghost g: { AttributeGrammar }
    requires shape { IsShapeOf g shape.now }
    requires class { class < g.class_count }
    requires attr { attr < g.attribute_count }
    ensures of_class { (result ≡ true) ↔ OfClass g class attr }
{
    let interface = shape.interface_of(class);
    shape.is_owner(attr, true, class) | shape.is_owner(attr, false, interface)
}
