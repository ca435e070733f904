//! A law on the first fault of plans.

ghost use Rattle.std.specs.Prelude.{◌≢◌, Some};
ghost use Rattle.ftl_model.specs.layout.AttributeGrammar.{AttributeGrammar};
ghost use Rattle.ftl_model.specs.layout.Tree.{Forest};
ghost use Rattle.ftl_order.specs.orders.Schedule.{Schedule};
ghost use Rattle.ftl_step_value.specs.limits.faults.PlanFaults.{first_fault};
ghost use Rattle.ftl_step_value.specs.declared.limits.faults.fault.PlanFault.TheVariants.{OutOfMemory};

/// A law: the first fault of a plan is never want of memory, so that where the search for it tells
/// that, the answer is open.
pub fn faults_are_of_stages()
    ensures memory { (g : AttributeGrammar) (s : Schedule) (t : Forest)
        → first_fault g s t ≢ Some OutOfMemory }
{}
