//! Grammars that are noncircular.

ghost use Rattle.std.specs.Prelude.{◌≡◌, IfOk};
ghost use Rattle.ftl_answer.specs.answers.Answer as answer;
ghost use Rattle.ftl_answer.specs.answers.Texts.{noncircular_grammar};
ghost use Rattle.ftl_noncircular.specs.declared.search.fault.CircularFault.TheVariants as faults;
ghost use Rattle.ftl_answer.specs.refusals.CircularLines.{circular_line};
ghost use Rattle.ftl_answer.specs.reading.sections.Outcomes.{IsOutcome};
ghost use Rattle.ftl_answer.specs.reading.sections.RefusalOf.{IsRefusalOf};

use crate::reading::sections::decision::{Undecided, refused};
use crate::reading::sections::status::Status;
use crate::write_circular_fault;
use ftl_checked::Checked;
use ftl_deps::dep_table;
use ftl_noncircular::{CircularFault, Noncircular, noncircular};
use std::alloc::Global;

/// The grammar as one that is noncircular.
#[inline(never)]
#[tactic(auto, using(crate::proofs::reading::sections::FaultEnds::may_refuse))]
pub fn noncircular_of<'a>(alloc: Global, checked: &'a Checked) -> Result<Noncircular<'a>, Undecided>
    ensures outcome { IsOutcome (noncircular_grammar checked.now) (λ n. n) result }
    ensures grammar { IfOk result (λ n. n ≡ checked.now) }
{
    let deps = dep_table(alloc, checked)?;
    match noncircular(alloc, checked, &deps) {
        Ok(found) => Ok(found),
        Err(fault) => Err(circular_refused(alloc, checked, fault)),
    }
}

fn circular_refused(alloc: Global, checked: &Checked, fault: CircularFault) -> Undecided
    ensures ends { IsRefusalOf faults.OutOfMemory
        (λ f. answer.refused 5 (circular_line checked.now.grammar f)) fault result }
{
    if let CircularFault::OutOfMemory = fault {
        return Undecided::OutOfMemory;
    }
    let mut line = Vec::new(alloc);
    match write_circular_fault(&mut line, checked, fault) {
        Ok(()) => refused(Status::GRAMMAR_REFUSED, line),
        Err(_) => Undecided::OutOfMemory,
    }
}
