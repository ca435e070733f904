//! One page of a context.

ghost use Rattle.std.specs.Prelude.{◌≡◌, IfErr, IfOk, OnErr};
ghost use Rattle.maugzeris_c.specs.context.Changing.{LaysOut, LaysOutAnew, MayNotBeLaidOut};
ghost use Rattle.maugzeris_c.specs.context.Changing.{MayNotTake, SetsInput, WantsMemory};
ghost use Rattle.maugzeris_c.specs.context.Telling.{FillsBoxes, FillsTouched, TellsAttribute};
ghost use Rattle.maugzeris_c.specs.context.Telling.{TellsCount, TellsValue};

use crate::context::fault::Fault;
use crate::context::filling::fill;
use maugzeris::{InstanceList, Page};
use std::alloc::Global;

/// A page, and the instances that its last relayout touched.
#[derive(Drop)]
pub struct OpenPage {
    pub page: Page<'static>,
    pub touched: InstanceList,
}

impl OpenPage {
    /// Lays the page out, where that was not done yet.
    pub(crate) fn lay_out(&mut self, alloc: Global) -> Result<(), Fault>
        ensures done { IfOk result (LaysOut self.old self.new) }
        ensures cause { IfErr result (WantsMemory self.old) }
        ensures unchanged { OnErr result (self.new ≡ self.old) }
    {
        self.page.lay_out(alloc)?;
        Ok(())
    }

    /// Gives an input of a node another number, which counts from the next `relayout` on.
    pub(crate) fn set_input(&mut self, node: u32, attribute: u32, value: i64) -> Result<(), Fault>
        ensures done { IfOk result (SetsInput node attribute value self.old self.new) }
        ensures cause { IfErr result (MayNotTake node attribute value self.old) }
        ensures unchanged { OnErr result (self.new ≡ self.old) }
    {
        if !self.page.takes(node, attribute, value) {
            return Err(Fault::NotTaken);
        }
        self.page.set_input(node, attribute, value)?;
        Ok(())
    }

    /// Lays the page out anew, and tells how many instances that touched.
    pub(crate) fn relayout(&mut self, alloc: Global) -> Result<usize, Fault>
        ensures done { IfOk result (LaysOutAnew self.old self.new) }
        ensures cause { IfErr result (MayNotBeLaidOut self.old) }
        ensures unchanged { OnErr result (self.new ≡ self.old) }
    {
        if !self.page.is_laid_out() {
            return Err(Fault::Wrong);
        }
        self.touched = self.page.relayout(alloc)?;
        Ok(self.touched.len())
    }

    /// How many nodes the page has.
    pub(crate) fn node_count(&self) -> Result<u32, Fault>
        ensures told { TellsCount self.now result }
    {
        Ok(self.page.node_count())
    }

    /// The attribute of a node that has this name.
    pub(crate) fn attribute(&self, node: u32, name: &[u8]) -> Result<u32, Fault>
        ensures told { TellsAttribute node name.now self.now result }
    {
        let Ok(name) = str::from_utf8(name) else {
            return Err(Fault::Wrong);
        };
        if node >= self.page.node_count() {
            return Err(Fault::Wrong);
        }
        match self.page.find_attribute(node, name) {
            Some(attribute) => Ok(attribute),
            None => Err(Fault::Wrong),
        }
    }

    /// The value of an attribute of a node.
    pub(crate) fn value(&self, node: u32, attribute: u32) -> Result<i64, Fault>
        ensures told { TellsValue node attribute self.now result }
    {
        if !self.page.is_laid_out() || node >= self.page.node_count() {
            return Err(Fault::Wrong);
        }
        if !self.page.has_attribute(node, attribute) {
            return Err(Fault::Wrong);
        }
        match self.page.value(node, attribute).get() {
            Some(number) => Ok(number),
            None => Err(Fault::Overflow),
        }
    }

    /// Puts the boxes into a buffer, as the program prints them.
    pub(crate) fn boxes(
        &self,
        alloc: Global,
        text: &mut [u8],
        needed: &mut usize,
    ) -> Result<(), Fault>
        ensures told { FillsBoxes text.old text.new needed.old needed.new self.now result }
    {
        if !self.page.is_laid_out() {
            return Err(Fault::Wrong);
        }
        let boxes = self.page.boxes(alloc)?;
        let overflows = self.page.shows_overflow(alloc)?;
        fill(boxes.as_slice(), text, needed)?;
        if overflows {
            return Err(Fault::Overflow);
        }
        Ok(())
    }

    /// Puts the instances that the last `relayout` touched into a buffer.
    pub(crate) fn touched(&self, instances: &mut [u32], needed: &mut usize) -> Result<(), Fault>
        ensures told { FillsTouched instances.old instances.new needed.new self.now result }
    {
        fill(self.touched.as_slice(), instances, needed)
    }
}
