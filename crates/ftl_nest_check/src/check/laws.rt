//! Laws on the first fault of schedules with nests.

ghost use Rattle.std.specs.Prelude.{◌≢◌, Some};
ghost use Rattle.ftl_model.specs.layout.AttributeGrammar.{AttributeGrammar};
ghost use Rattle.ftl_order.specs.declared.faults.fault.VerifyFault.TheVariants.{OutOfMemory};
ghost use Rattle.ftl_nests.specs.Nests.{NestingSchedule};
ghost use Rattle.ftl_nest_check.specs.check.NestFault.{FaultlessIsNestOrdered, first_nest_fault};

/// A law: a schedule of computed attributes that keeps the sides of its nests has no fault exactly
/// where it is ordered.
pub fn faultless_is_nest_ordered()
    ensures ordered { FaultlessIsNestOrdered }
{}

/// A law: the first fault is never want of memory, so that where the check tells that, the answer
/// is open.
pub fn nest_faults_are_of_entries()
    ensures memory { (g : AttributeGrammar) (s : NestingSchedule)
        → first_nest_fault g s ≢ Some OutOfMemory }
{}
