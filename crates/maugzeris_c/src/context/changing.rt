//! Pages of a context laid out, changed and laid out anew.

ghost use Rattle.maugzeris_c.specs.context.Changing.{Changes, LaysOut, LaysOutAnew};
ghost use Rattle.maugzeris_c.specs.context.Changing.{MayNotBeLaidOut, MayNotTake, SetsInput};
ghost use Rattle.maugzeris_c.specs.context.Changing.{WantsMemory};

use crate::context::entries::Context;
use crate::context::fault::Fault;
use std::alloc::Global;

impl Context {
    /// Lays a page out, where that was not done yet.
    pub(crate) fn lay_out(&mut self, alloc: Global, page: u32) -> Result<(), Fault>
        ensures changes { Changes LaysOut WantsMemory self.old self.new page result }
    {
        let page = page as usize;
        if self.page(page).is_none() {
            return Err(Fault::Wrong);
        }
        match &mut self.pages[page] {
            Some(place) => place.lay_out(alloc),
            None => Err(Fault::Wrong),
        }
    }

    /// Gives an input of a node another number, which counts from the next `relayout` on.
    pub(crate) fn set_input(
        &mut self,
        page: u32,
        node: u32,
        attribute: u32,
        value: i64,
    ) -> Result<(), Fault>
        ensures changes { Changes (SetsInput node attribute value) (MayNotTake node attribute value)
            self.old self.new page result }
    {
        let page = page as usize;
        if self.page(page).is_none() {
            return Err(Fault::Wrong);
        }
        match &mut self.pages[page] {
            Some(place) => place.set_input(node, attribute, value),
            None => Err(Fault::Wrong),
        }
    }

    /// Lays a page out anew, and tells how many instances that touched.
    pub(crate) fn relayout(&mut self, alloc: Global, page: u32) -> Result<usize, Fault>
        ensures changes { Changes LaysOutAnew MayNotBeLaidOut self.old self.new page result }
    {
        let page = page as usize;
        if self.page(page).is_none() {
            return Err(Fault::Wrong);
        }
        match &mut self.pages[page] {
            Some(place) => place.relayout(alloc),
            None => Err(Fault::Wrong),
        }
    }
}
