//! A law on the first fault of schedules by number.

ghost use Rattle.std.specs.Prelude.{◌≢◌, Some};
ghost use Rattle.ftl_model.specs.layout.AttributeGrammar.{AttributeGrammar};
ghost use Rattle.ftl_order.specs.orders.Schedule.{Schedule};
ghost use Rattle.ftl_order.specs.faults.FirstFault.{first_fault};
ghost use Rattle.ftl_order.specs.declared.faults.fault.VerifyFault.TheVariants.{OutOfMemory};

/// A law: the first fault of a schedule by number is never want of memory, so that where the check
/// tells that, the answer is open.
pub fn faults_are_of_entries()
    ensures memory { (g : AttributeGrammar) (s : Schedule) → first_fault g s ≢ Some OutOfMemory }
{}
