//! Pages laid out, changed and laid out anew.

ghost use Rattle.std.specs.Prelude.{◌≡◌, ◌≢◌};
ghost use Rattle.maugzeris_c.specs.context.Changing.{Changes, LaysOut, LaysOutAnew};
ghost use Rattle.maugzeris_c.specs.context.Changing.{MayNotBeLaidOut, MayNotTake, SetsInput};
ghost use Rattle.maugzeris_c.specs.context.Changing.{WantsMemory};
ghost use Rattle.maugzeris_c.specs.context.Outcome.{Ends, Tells};
ghost use Rattle.maugzeris_c.specs.kept.OnContext.{OnContext};

use crate::calls::{NONE, status_of, told};
use crate::kept::Held;
use std::alloc::Global;

/// Lays a page out, where that was not done yet.
#[unsafe(no_mangle)]
pub extern "C" fn maugzeris_page_lay_out(alloc: Global, held: &mut Held, page: u32) -> u32
    ensures call { OnContext held.old held.new result (λ old new.
        Ends result (Changes LaysOut WantsMemory old new page)) }
{
    let Some(mut context) = held.take(alloc) else {
        return NONE;
    };
    let done = context.lay_out(alloc, page);
    held.put(context);
    status_of(done)
}

/// Gives an input of a node another number, which counts from the next relayout on.
#[unsafe(no_mangle)]
pub extern "C" fn maugzeris_page_set_input(
    alloc: Global,
    held: &mut Held,
    page: u32,
    node: u32,
    attribute: u32,
    value: i64,
) -> u32
    ensures call { OnContext held.old held.new result (λ old new. Ends result
        (Changes (SetsInput node attribute value) (MayNotTake node attribute value) old new page)) }
{
    let Some(mut context) = held.take(alloc) else {
        return NONE;
    };
    let done = context.set_input(page, node, attribute, value);
    held.put(context);
    status_of(done)
}

/// Lays a page out anew, and tells how many instances that touched.
#[unsafe(no_mangle)]
pub extern "C" fn maugzeris_page_relayout(
    alloc: Global,
    held: &mut Held,
    page: u32,
    touched: &mut usize,
) -> u32
    ensures call { OnContext held.old held.new result (λ old new.
        Tells result touched.old touched.new (Changes LaysOutAnew MayNotBeLaidOut old new page)) }
    ensures none { held.old.live ≢ 1 → touched.new ≡ touched.old }
{
    let Some(mut context) = held.take(alloc) else {
        return NONE;
    };
    let done = context.relayout(alloc, page);
    held.put(context);
    told(done, touched)
}
