//! Laws on orders under schedules with nests.
ghost use Rattle.ftl_example.specs.nests.orders.EarlyWithNests.{EarlyFirstIsFreeWithNests};
ghost use Rattle.ftl_example.specs.nests.orders.EarlyWithNests.{EarlyIsClosedWithNests};
ghost use Rattle.ftl_example.specs.nests.orders.NestOrders.{ClosedPartingKeepsLegalWithNests};
ghost use Rattle.ftl_example.specs.nests.orders.NestOrders.{PlainOrderIsLegalWithNests};

/// A law: the plain order of the flat schedule is legal under the one with nests, and stays so
/// where the steps that are early for a step come first; then that step stands after none that need
/// not come before it.
pub fn plain_orders_with_nests()
    ensures legal { PlainOrderIsLegalWithNests }
    ensures closed { ClosedPartingKeepsLegalWithNests }
    ensures early { EarlyIsClosedWithNests }
    ensures free { EarlyFirstIsFreeWithNests }
{}
