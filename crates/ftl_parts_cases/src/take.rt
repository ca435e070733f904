// A hand takes an item from the look to the last delivery, for any work.
ghost use Rattle.std.specs.Prelude.{◌≡◌, ◌<◌, ◌≤◌, vec_capacity};
ghost use Rattle.ftl_cells.specs.shared.Work.{item_total};
ghost use Rattle.ftl_cells.specs.shared.State.{live};
ghost use Rattle.ftl_cells.specs.shared.Calls.{IsMadeBy};
ghost use Rattle.ftl_cells.specs.declared.shared.place.HandPlace.TheVariants.{Idle, Filled};

use ftl_base::{CodeStack, Val};
use ftl_cells::{Cells, Claim, Hand, Look, Work};

/// Makes all deliveries of a filled item.
fn deliver_all<W: Work>(cells: &Cells<W>, hand: &mut Hand, item: u32)
    requires made { IsMadeBy (W.meaning cells.now.1) cells.now.0 hand.old }
    requires filled { hand.old.state.place ≡ live (Filled item) }
    requires item { item < item_total (W.meaning cells.now.1) }
    ensures made { IsMadeBy (W.meaning cells.now.1) cells.now.0 hand.new }
    ensures idle { hand.new.state.place ≡ live Idle }
{
    for _ in 0..cells.work().next_count(item) {
        cells.deliver(hand);
    }
    cells.deliver(hand);
}

/// Whether the item was there to take. It is filled then, and told to the items that wait for it.
pub(crate) fn take<W: Work>(
    cells: &Cells<W>,
    hand: &mut Hand,
    item: u32,
    reads: &mut Vec<Val>,
    stack: &mut CodeStack,
) -> bool
    requires made { IsMadeBy (W.meaning cells.now.1) cells.now.0 hand.old }
    requires idle { hand.old.state.place ≡ live Idle }
    requires item { item < item_total (W.meaning cells.now.1) }
    requires reads { (W.meaning cells.now.1).max_reads ≤ vec_capacity reads.old }
    requires room { (W.meaning cells.now.1).max_stack ≤ stack.old.room }
    ensures made { IsMadeBy (W.meaning cells.now.1) cells.now.0 hand.new }
    ensures idle { hand.new.state.place ≡ live Idle }
    ensures reads { vec_capacity reads.old ≤ vec_capacity reads.new }
    ensures room { stack.new.room ≡ stack.old.room }
{
    let Look::Ready = cells.look(hand, item) else {
        return false;
    };
    let Claim::Mine = cells.claim(hand) else {
        return false;
    };
    cells.fill_item(hand, reads, stack);
    cells.mark(hand);
    deliver_all(cells, hand, item);
    true
}
