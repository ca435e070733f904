//! Laws on orders.
ghost use Rattle.ftl_example.specs.orders.EarlyVisits.{EarlyFirstIsFree, EarlyIsClosed};
ghost use Rattle.ftl_example.specs.orders.PlainOrder.{ClosedPartingKeepsLegal};
ghost use Rattle.ftl_example.specs.orders.PlainOrder.{PartingKeepsLegal, PlainOrderIsLegal};
ghost use Rattle.ftl_example.specs.orders.WorkedOrders.{OrderOfNested};

/// A law: the plain order is legal, and stays so where a step and what must precede it come first.
pub fn plain_orders()
    ensures legal { PlainOrderIsLegal }
    ensures parted { PartingKeepsLegal }
    ensures closed { ClosedPartingKeepsLegal }
    ensures early { EarlyIsClosed }
    ensures free { EarlyFirstIsFree }
{}

/// A law: the plain order of a tree as it was typed by hand.
pub fn worked_orders()
    ensures nested { OrderOfNested }
{}
