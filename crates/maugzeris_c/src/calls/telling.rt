//! What is told of pages and refusals.

ghost use Rattle.std.specs.Prelude.{◌≡◌, ◌≢◌};
ghost use Rattle.maugzeris_c.specs.context.Outcome.{Ends, Tells};
ghost use Rattle.maugzeris_c.specs.context.State.{DoesNothing};
ghost use Rattle.maugzeris_c.specs.context.Telling.{Asks, AsksFor, Fills, FillsBoxes, FillsTouched};
ghost use Rattle.maugzeris_c.specs.context.Telling.{LeavesBuffer, TellsAttribute, TellsCount};
ghost use Rattle.maugzeris_c.specs.context.Telling.{TellsValue};
ghost use Rattle.maugzeris_c.specs.kept.OnContext.{OnContext};

use crate::calls::{NONE, status_of, told};
use crate::kept::Held;
use std::alloc::Global;

/// The line of the last refusal, with its line feed; empty where there was none.
#[unsafe(no_mangle)]
pub extern "C" fn maugzeris_refusal(
    alloc: Global,
    held: &mut Held,
    line: &mut [u8],
    length: &mut usize,
) -> u32
    ensures call { OnContext held.old held.new result (λ old new. DoesNothing old new
        × Ends result (Fills old.refusal line.old line.new length.new)) }
    ensures none { held.old.live ≢ 1 → LeavesBuffer line.old line.new length.old length.new }
{
    let Some(context) = held.take(alloc) else {
        return NONE;
    };
    let done = context.refusal_line(line, length);
    held.put(context);
    status_of(done)
}

/// The boxes of a page that was laid out, as the program prints them. Status 8 where a shown value
/// is Overflow.
#[unsafe(no_mangle)]
pub extern "C" fn maugzeris_page_boxes(
    alloc: Global,
    held: &mut Held,
    page: u32,
    text: &mut [u8],
    length: &mut usize,
) -> u32
    ensures call { OnContext held.old held.new result (λ old new. DoesNothing old new
        × Ends result (AsksFor old page (FillsBoxes text.old text.new length.old length.new)
        (LeavesBuffer text.old text.new length.old length.new))) }
    ensures none { held.old.live ≢ 1 → LeavesBuffer text.old text.new length.old length.new }
{
    let Some(context) = held.take(alloc) else {
        return NONE;
    };
    let done = context.boxes(alloc, page, text, length);
    held.put(context);
    status_of(done)
}

/// How many nodes a page has, numbered from 0 in preorder.
#[unsafe(no_mangle)]
pub extern "C" fn maugzeris_page_node_count(
    alloc: Global,
    held: &mut Held,
    page: u32,
    count: &mut u32,
) -> u32
    ensures call { OnContext held.old held.new result (λ old new. DoesNothing old new
        × Tells result count.old count.new (Asks old page TellsCount)) }
    ensures none { held.old.live ≢ 1 → count.new ≡ count.old }
{
    let Some(context) = held.take(alloc) else {
        return NONE;
    };
    let done = context.node_count(page);
    held.put(context);
    told(done, count)
}

/// The attribute of a node that has this name.
#[unsafe(no_mangle)]
pub extern "C" fn maugzeris_page_attribute(
    alloc: Global,
    held: &mut Held,
    page: u32,
    node: u32,
    name: &[u8],
    attribute: &mut u32,
) -> u32
    ensures call { OnContext held.old held.new result (λ old new. DoesNothing old new
        × Tells result attribute.old attribute.new (Asks old page (TellsAttribute node name.now))) }
    ensures none { held.old.live ≢ 1 → attribute.new ≡ attribute.old }
{
    let Some(context) = held.take(alloc) else {
        return NONE;
    };
    let done = context.attribute(page, node, name);
    held.put(context);
    told(done, attribute)
}

/// The value of an attribute of a node of a page that was laid out. Status 8 where it is Overflow.
#[unsafe(no_mangle)]
pub extern "C" fn maugzeris_page_value(
    alloc: Global,
    held: &mut Held,
    page: u32,
    node: u32,
    attribute: u32,
    value: &mut i64,
) -> u32
    ensures call { OnContext held.old held.new result (λ old new. DoesNothing old new
        × Tells result value.old value.new (Asks old page (TellsValue node attribute))) }
    ensures none { held.old.live ≢ 1 → value.new ≡ value.old }
{
    let Some(context) = held.take(alloc) else {
        return NONE;
    };
    let done = context.value(page, node, attribute);
    held.put(context);
    told(done, value)
}

/// The numbers of the instances that the last relayout of a page touched, in rising order.
#[unsafe(no_mangle)]
pub extern "C" fn maugzeris_page_touched(
    alloc: Global,
    held: &mut Held,
    page: u32,
    instances: &mut [u32],
    count: &mut usize,
) -> u32
    ensures call { OnContext held.old held.new result (λ old new. DoesNothing old new
        × Ends result (AsksFor old page (FillsTouched instances.old instances.new count.new)
        (LeavesBuffer instances.old instances.new count.old count.new))) }
    ensures none { held.old.live ≢ 1
        → LeavesBuffer instances.old instances.new count.old count.new }
{
    let Some(context) = held.take(alloc) else {
        return NONE;
    };
    let done = context.touched(page, instances, count);
    held.put(context);
    status_of(done)
}
