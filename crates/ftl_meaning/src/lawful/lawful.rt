//! Laws on grammars without a fault.

ghost use Rattle.std.specs.Prelude.{◌≢◌, Some};
ghost use Rattle.ftl_order.specs.orders.Lawful.{IsLawful};
ghost use Rattle.ftl_grammar.specs.declared.syntax.rules.Grammar.{Grammar};
ghost use Rattle.ftl_meaning.specs.faults.FirstFault.{first_fault};
ghost use Rattle.ftl_meaning.specs.declared.faults.fault.GrammarFault.TheVariants.{OutOfMemory};
ghost use Rattle.ftl_meaning.specs.lawful.Faultless.{SpelledAreFaultless};
ghost use Rattle.ftl_meaning.specs.lawful.LawfulOf.{OfFaultless, HasOneTable, HasOneList};
ghost use Rattle.ftl_meaning.specs.lawful.LawfulOf.{StaysInRange};
ghost use Rattle.ftl_meaning.specs.lawful.Limits.{IsWithinLimits};
ghost use Rattle.ftl_meaning.specs.lawful.Kept.{RulesAreKept, RulesAreWritten};
ghost use Rattle.ftl_meaning.specs.lawful.TextOrder.{ReadsStandInTextOrder};

/// A law: a grammar without a fault is lawful, with its names gone and in either width. So exactly
/// one table solves each of its trees under each ordered schedule, with values in the range.
pub fn faultless_grammars_are_lawful()
    ensures lawful { OfFaultless IsLawful }
    ensures one_table { OfFaultless HasOneTable }
    ensures one_list { OfFaultless HasOneList }
    ensures in_range { OfFaultless StaysInRange }
    ensures spelled { SpelledAreFaultless }
{}

/// A law: nothing of a grammar without a fault is lost where its names go. Each rule is the one for
/// what it is for, with its reads in the order of the text, and each attribute that a rule has to
/// define has one.
pub fn rules_are_kept()
    ensures kept { RulesAreKept }
    ensures written { RulesAreWritten }
    ensures text_order { ReadsStandInTextOrder }
{}

/// A law: a grammar without a fault keeps to the limits, with its names gone.
pub fn faultless_grammars_are_small()
    ensures limits { OfFaultless IsWithinLimits }
{}

/// A law: the first fault of a grammar is never want of memory, so that where the check of a
/// grammar tells that, the answer is open.
pub fn faults_are_of_grammars()
    ensures memory { (g : Grammar) → first_fault g ≢ Some OutOfMemory }
{}
