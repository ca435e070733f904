//! What the region of a host class has, and whether a nest with this host is closed.

ghost use Rattle.std.specs.Prelude.{◌≡◌, ◌<◌, ◌↔◌, ℕ, true, Contains, IfOk, MatchOption};
ghost use Rattle.ftl_deps.specs.reads.Meant.{meant};
ghost use Rattle.ftl_nests.specs.Region.{InRegion, IsClosed, IsOwner, OfRegion};
ghost use Rattle.ftl_regions.specs.hosts.Parents.{HasChildIn, HasNoOtherParent, IsRightParent};
ghost use Rattle.ftl_regions.specs.hosts.Sides.{HoldsOfEach, IsFirstWhere, IsOutside};

use crate::hosts::steps::steps_of;
use ftl_checked::Checked;
use lane_rows::BitMatrix;
use std::alloc::{AllocError, Global};
use std::marker::Model;

/// The regions of a grammar's classes, each taken as a host class. Contracts see the grammar.
#[derive(Drop)]
pub struct Regions<'a> {
    checked: &'a Checked,
    /// From each interface, and behind these from each class, to the interfaces below it.
    leads: BitMatrix,
}

impl<'a> Model for Regions<'a> {
    ghost use Rattle.std.specs.Coded.{codes};
    ghost use Rattle.ftl_grammar.specs.contracts.syntax.expression.Expr as e;
    ghost use Rattle.ftl_deps.specs.reads.Meant.{meant};
    ghost use Rattle.ftl_meaning.specs.faults.Checked.{CheckedGrammar};
    ghost use Rattle.ftl_regions.specs.hosts.Steps.{AreRegions};

    ghost Value = { CheckedGrammar };

    ghost coded = { Prim.hlevel (codes, e.the_row.coded) };

    ghost view = { λ r. r.checked.now };

    ghost invariant = { λ r. AreRegions (meant r.checked.now) r.leads };
}

impl<'a> Regions<'a> {
    /// The regions of a grammar.
    pub fn new(alloc: Global, checked: &'a Checked) -> Result<Regions<'a>, AllocError>
        ensures grammar { IfOk result (λ regions. regions ≡ checked.now) }
    {
        let _lawful = checked.grammar();
        let mut leads = steps_of(alloc, checked)?;
        leads.close();
        Ok(Regions { checked, leads })
    }

    /// Whether the host's region has the interface.
    pub fn is_in(&self, host: u32, interface: u32) -> bool
        requires host { host < (meant self.now).class_count }
        requires interface { interface < (meant self.now).interface_count }
        ensures region { (result ≡ true) ↔ InRegion (meant self.now) host interface }
    {
        self.leads
            .has(self.checked.interface_count() + host, interface)
    }

    /// Whether the host's region has the attribute: one of an interface of it, or one that a class
    /// of such an interface adds.
    pub fn has_attribute(&self, host: u32, attr: u32) -> bool
        requires host { host < (meant self.now).class_count }
        requires attribute { attr < (meant self.now).attribute_count }
        ensures region { (result ≡ true) ↔ OfRegion (meant self.now) host attr }
    {
        let interface = interface_with(self.checked, attr);
        self.is_in(host, interface)
    }

    /// The first place of a list at which an attribute of the host's region stands; none where all
    /// are outside it.
    pub fn first_inside(&self, host: u32, attrs: &[u32]) -> Option<usize>
        requires host { host < (meant self.now).class_count }
        requires attributes { (a : ℕ) → Contains attrs.now a
            → a < (meant self.now).attribute_count }
        ensures first { MatchOption result
            (HoldsOfEach (IsOutside (meant self.now) host) attrs.now)
            (IsFirstWhere (IsOutside (meant self.now) host) (OfRegion (meant self.now) host)
            attrs.now) }
    {
        for place in 0..attrs.len() {
            if self.has_attribute(host, attrs[place]) {
                return Some(place);
            }
        }
        None
    }

    /// The first place of a list at which an attribute outside the host's region stands; none where
    /// all are of it.
    pub fn first_outside(&self, host: u32, attrs: &[u32]) -> Option<usize>
        requires host { host < (meant self.now).class_count }
        requires attributes { (a : ℕ) → Contains attrs.now a
            → a < (meant self.now).attribute_count }
        ensures first { MatchOption result
            (HoldsOfEach (OfRegion (meant self.now) host) attrs.now)
            (IsFirstWhere (OfRegion (meant self.now) host) (IsOutside (meant self.now) host)
            attrs.now) }
    {
        for place in 0..attrs.len() {
            if !self.has_attribute(host, attrs[place]) {
                return Some(place);
            }
        }
        None
    }

    /// Whether a nest with this host is closed.
    pub fn is_closed(&self, host: u32) -> bool
        requires host { host < (meant self.now).class_count }
        ensures closed { (result ≡ true) ↔ IsClosed (meant self.now) host }
    {
        if self.is_in(host, self.checked.interface_of(host)) {
            return false;
        }
        if self.is_in(host, self.checked.root()) {
            return false;
        }
        self.has_no_other_parent(host)
    }

    /// Whether each class that has a child of the region is the host or one of the region.
    fn has_no_other_parent(&self, host: u32) -> bool
        requires host { host < (meant self.now).class_count }
        ensures parents { (result ≡ true) ↔ HasNoOtherParent (meant self.now) host }
    {
        for class in 0..self.checked.class_count() {
            if !self.is_right_parent(host, class) {
                return false;
            }
        }
        true
    }

    /// Whether the class has no child of the region, or is the host or one of the region.
    fn is_right_parent(&self, host: u32, class: u32) -> bool
        requires host { host < (meant self.now).class_count }
        requires class { class < (meant self.now).class_count }
        ensures parent { (result ≡ true) ↔ IsRightParent (meant self.now) host class }
    {
        if class == host {
            return true;
        }
        if self.is_in(host, self.checked.interface_of(class)) {
            return true;
        }
        !self.has_child_in(host, class)
    }

    /// Whether the class has a child of the region.
    fn has_child_in(&self, host: u32, class: u32) -> bool
        requires host { host < (meant self.now).class_count }
        requires class { class < (meant self.now).class_count }
        ensures child { (result ≡ true) ↔ HasChildIn (meant self.now) host class }
    {
        for child in 0..self.checked.child_count(class) {
            if self.is_in(host, self.checked.child(class, child).interface) {
                return true;
            }
        }
        false
    }
}

/// The interface that has the attribute, or whose class adds it.
fn interface_with(checked: &Checked, attr: u32) -> u32
    requires attribute { attr < (meant checked.now).attribute_count }
    ensures interface { result < (meant checked.now).interface_count }
    ensures owner { IsOwner (meant checked.now) result attr }
{
    let _lawful = checked.grammar();
    let info = checked.attr(attr);
    if info.of_class {
        checked.interface_of(info.owner)
    } else {
        info.owner
    }
}
