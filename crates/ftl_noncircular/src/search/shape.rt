//! What the search has to know of a grammar, in flat tables.

ghost use Rattle.std.specs.Prelude.{◌≡◌, ◌<◌, ◌≤◌, ◌↔◌, true, length, slice_index, IfOk};
ghost use Rattle.ftl_deps.specs.reads.Meant.{meant};
ghost use Rattle.ftl_model.specs.layout.AttributeGrammar.{AttributeGrammar};
ghost use Rattle.ftl_noncircular.specs.grammars.Noncircular.{IsVertex, of_self, of_child};
ghost use Rattle.ftl_noncircular.specs.search.Circles.{vertex_at};
ghost use Rattle.ftl_noncircular.specs.search.Numbers.{number, vertex_count};
ghost use Rattle.ftl_noncircular.specs.search.Shapes.{IsOwner, IsShapeOf, inherited_of, kids_of};
ghost use Rattle.ftl_noncircular.specs.search.Shapes.{owner_at, synthesized_of};

use crate::search::places::places_of;
use crate::search::tables::{all_kids, all_ports, interfaces_of, owners_of};
use ftl_checked::Checked;
use sqlite_items::Items;
use std::alloc::{AllocError, Global};

/// The numbers of a node's own vertices are below this one; those of its children follow.
const OWN_VERTICES: u32 = 128;

/// How many numbers the vertices of a child have.
const CHILD_VERTICES: u32 = 64;

/// Who declares an attribute: the class of this number, or the interface.
#[derive(Clone, Copy, Debug, PartialEq, Eq)]
pub struct Owner {
    pub of_class: bool,
    pub number: u32,
}

/// A child of a class.
#[derive(Clone, Copy, Debug, PartialEq, Eq)]
pub struct Kid {
    pub interface: u32,
    pub many: bool,
}

/// An attribute of a node, or of the kids in a child.
#[derive(Clone, Copy, Debug, PartialEq, Eq)]
pub struct Vertex {
    pub child: Option<u32>,
    pub attr: u32,
}

/// The attributes, interfaces and classes of a grammar, by number.
#[derive(Drop)]
pub struct Shape {
    /// By attribute: its place among those of its owner; those of classes count from 64.
    pub places: Items<u32>,
    /// By attribute.
    pub owners: Items<Owner>,
    /// By interface: its inherited attributes.
    pub inherited: Items<Items<u32>>,
    /// By interface: its synthesized attributes.
    pub synthesized: Items<Items<u32>>,
    /// By class: its interface.
    pub interfaces: Items<u32>,
    /// By class: its children.
    pub kids: Items<Items<Kid>>,
}

impl Shape {
    /// The tables of a checked grammar.
    pub(crate) fn new(alloc: Global, checked: &Checked) -> Result<Shape, AllocError>
        ensures shape { IfOk result (IsShapeOf (meant checked.now)) }
    {
        let _lawful = checked.grammar();
        Ok(Shape {
            places: places_of(alloc, checked)?,
            owners: owners_of(alloc, checked)?,
            inherited: all_ports(alloc, checked, true)?,
            synthesized: all_ports(alloc, checked, false)?,
            interfaces: interfaces_of(alloc, checked)?,
            kids: all_kids(alloc, checked)?,
        })
    }

    /// The number of the vertex of an attribute of the node.
    pub(crate) fn self_vertex(&self, attr: u32) -> u32
        requires attr { attr < length self.now.places }
        ensures number { result ≡ number self.now.places (of_self attr) }
    {
        self.places.as_slice()[attr as usize]
    }

    /// How many numbers the vertices of a class have.
    pub(crate) fn size(&self, class: u32) -> u32
        ghost g: { AttributeGrammar }
        requires shape { IsShapeOf g self.now }
        requires class { class < g.class_count }
        ensures size { result ≡ vertex_count g class }
        ensures few { result ≤ 1152 }
    {
        OWN_VERTICES + CHILD_VERTICES * self.kids_of(class).len() as u32
    }

    /// The number of a vertex of a class.
    pub(crate) fn number(&self, class: u32, vertex: Vertex) -> u32
        ghost g: { AttributeGrammar }
        requires shape { IsShapeOf g self.now }
        requires class { class < g.class_count }
        requires vertex { IsVertex g class (vertex_at vertex.child vertex.attr) }
        ensures number { result ≡ number self.now.places (vertex_at vertex.child vertex.attr) }
        ensures low { result < vertex_count g class }
    {
        match vertex.child {
            None => self.self_vertex(vertex.attr),
            Some(child) => self.child_vertex(child, vertex.attr),
        }
    }

    /// The number of the vertex of an attribute of the kids in a child.
    pub(crate) fn child_vertex(&self, child: u32, attr: u32) -> u32
        requires child { child < 16 }
        requires attr { attr < length self.now.places }
        requires place { slice_index self.now.places attr < 64 }
        ensures number { result ≡ number self.now.places (of_child child attr) }
    {
        OWN_VERTICES + CHILD_VERTICES * child + self.places.as_slice()[attr as usize]
    }

    /// Whether this class, or this interface, declares the attribute.
    pub(crate) fn is_owner(&self, attr: u32, of_class: bool, number: u32) -> bool
        requires attr { attr < length self.now.owners }
        ensures owner { (result ≡ true) ↔ IsOwner of_class number (owner_at self.now attr) }
    {
        let owner = self.owners.as_slice()[attr as usize];
        owner.of_class == of_class && owner.number == number
    }

    /// The interface of a class.
    pub(crate) fn interface_of(&self, class: u32) -> u32
        requires class { class < length self.now.interfaces }
        ensures interface { result ≡ slice_index self.now.interfaces class }
    {
        self.interfaces.as_slice()[class as usize]
    }

    /// The inherited attributes of an interface.
    pub(crate) fn inherited_of(&self, interface: u32) -> &[u32]
        requires interface { interface < length self.now.inherited }
        ensures attributes { result.now ≡ inherited_of self.now interface }
    {
        self.inherited.as_slice()[interface as usize].as_slice()
    }

    /// The synthesized attributes of an interface.
    pub(crate) fn synthesized_of(&self, interface: u32) -> &[u32]
        requires interface { interface < length self.now.synthesized }
        ensures attributes { result.now ≡ synthesized_of self.now interface }
    {
        self.synthesized.as_slice()[interface as usize].as_slice()
    }

    /// The children of a class.
    pub(crate) fn kids_of(&self, class: u32) -> &[Kid]
        requires class { class < length self.now.kids }
        ensures kids { result.now ≡ kids_of self.now class }
    {
        self.kids.as_slice()[class as usize].as_slice()
    }
}
