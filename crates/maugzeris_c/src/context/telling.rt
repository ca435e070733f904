//! What a context tells.

ghost use Rattle.std.specs.Prelude.{◌≡◌, MatchOption};
ghost use Rattle.std.specs.Option.{option_copied};
ghost use Rattle.maugzeris_c.specs.context.State.{page_of};
ghost use Rattle.maugzeris_c.specs.context.Telling.{Asks, AsksFor, Fills, LeavesBuffer, FillsBoxes};
ghost use Rattle.maugzeris_c.specs.context.Telling.{FillsTouched, TellsAttribute, TellsCount};
ghost use Rattle.maugzeris_c.specs.context.Telling.{TellsValue};

use crate::context::entries::Context;
use crate::context::fault::Fault;
use crate::context::filling::fill;
use crate::context::open_page::OpenPage;
use std::alloc::Global;

impl Context {
    /// The page of a number, where it was made and not freed.
    pub(crate) fn page(&self, page: usize) -> Option<&OpenPage>
        ensures page { option_copied result ≡ page_of self.now page }
    {
        match self.pages.as_slice().get(page) {
            Some(Some(place)) => Some(place),
            _ => None,
        }
    }

    /// Puts the line of the last refusal into a buffer.
    pub(crate) fn refusal_line(&self, line: &mut [u8], needed: &mut usize) -> Result<(), Fault>
        ensures told { Fills self.now.refusal line.old line.new needed.new result }
    {
        fill(self.refusal.as_slice(), line, needed)
    }

    /// How many nodes a page has.
    pub(crate) fn node_count(&self, page: u32) -> Result<u32, Fault>
        ensures told { Asks self.now page TellsCount result }
    {
        match self.page(page as usize) {
            Some(place) => place.node_count(),
            None => Err(Fault::Wrong),
        }
    }

    /// The attribute of a node of a page that has this name.
    pub(crate) fn attribute(&self, page: u32, node: u32, name: &[u8]) -> Result<u32, Fault>
        ensures told { Asks self.now page (TellsAttribute node name.now) result }
    {
        match self.page(page as usize) {
            Some(place) => place.attribute(node, name),
            None => Err(Fault::Wrong),
        }
    }

    /// The value of an attribute of a node of a page.
    pub(crate) fn value(&self, page: u32, node: u32, attribute: u32) -> Result<i64, Fault>
        ensures told { Asks self.now page (TellsValue node attribute) result }
    {
        match self.page(page as usize) {
            Some(place) => place.value(node, attribute),
            None => Err(Fault::Wrong),
        }
    }

    /// Puts the boxes of a page into a buffer, as the program prints them.
    pub(crate) fn boxes(
        &self,
        alloc: Global,
        page: u32,
        text: &mut [u8],
        needed: &mut usize,
    ) -> Result<(), Fault>
        ensures told { AsksFor self.now page
            (FillsBoxes text.old text.new needed.old needed.new)
            (LeavesBuffer text.old text.new needed.old needed.new) result }
    {
        match self.page(page as usize) {
            Some(place) => place.boxes(alloc, text, needed),
            None => Err(Fault::Wrong),
        }
    }

    /// Puts the instances that the last relayout of a page touched into a buffer.
    pub(crate) fn touched(
        &self,
        page: u32,
        instances: &mut [u32],
        needed: &mut usize,
    ) -> Result<(), Fault>
        ensures told { AsksFor self.now page
            (FillsTouched instances.old instances.new needed.new)
            (LeavesBuffer instances.old instances.new needed.old needed.new) result }
    {
        match self.page(page as usize) {
            Some(place) => place.touched(instances, needed),
            None => Err(Fault::Wrong),
        }
    }
}
