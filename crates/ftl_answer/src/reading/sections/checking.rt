//! The grammar of a text, checked.

ghost use Rattle.ftl_model.specs.layout.Limits.{most_page_bytes};
ghost use Rattle.std.specs.Prelude.{◌≤◌, length, string_bytes, string_len};
ghost use Rattle.ftl_answer.specs.answers.Answer as answer;
ghost use Rattle.ftl_answer.specs.answers.Stages.{Then};
ghost use Rattle.ftl_answer.specs.answers.Texts.{grammar, lawful_grammar, spelled_grammar};
ghost use Rattle.ftl_grammar.specs.reading.Readable.{CanBeRead};
ghost use Rattle.ftl_meaning.specs.declared.faults.fault.GrammarFault.TheVariants as faults;
ghost use Rattle.ftl_answer.specs.refusals.GrammarLines.{grammar_line};
ghost use Rattle.ftl_answer.specs.refusals.TextLines.{syntax_line};
ghost use Rattle.ftl_answer.specs.reading.sections.Outcomes.{Ends, IsOutcome};
ghost use Rattle.ftl_answer.specs.reading.sections.RefusalOf.{IsRefusalOf};

use crate::reading::sections::decision::{Undecided, refused};
use crate::reading::sections::read::section_tokens;
use crate::reading::sections::status::Status;
use crate::{write_grammar_fault, write_syntax_fault};
use ftl_base::Width;
use ftl_checked::{Checked, check_grammar};
use ftl_grammar::{Grammar, SyntaxFault, read_grammar};
use ftl_meaning::GrammarFault;
use ftl_page::{Section, Text};
use ftl_tokens::Scanned;
use std::alloc::Global;

/// The lawful grammar that the text spells, in this width.
#[inline(never)]
pub fn grammar_of(alloc: Global, width: Width, text: Text) -> Result<Checked, Undecided>
    requires short { length text ≤ most_page_bytes }
    ensures outcome { IsOutcome (grammar width text) (λ c. c) result }
{
    grammar_of_text(alloc, width, text.into_string())
}

/// The lawful grammar that a string spells, in this width.
pub fn grammar_of_text(alloc: Global, width: Width, text: String) -> Result<Checked, Undecided>
    requires short { string_len text ≤ most_page_bytes }
    ensures outcome { IsOutcome (grammar width (string_bytes text)) (λ c. c) result }
{
    match section_tokens(alloc, Section::Grammar, text) {
        Ok(scanned) => grammar_of_tokens(alloc, width, &scanned),
        Err(end) => Err(end),
    }
}

/// The lawful grammar that the tokens spell.
fn grammar_of_tokens(alloc: Global, width: Width, scanned: &Scanned) -> Result<Checked, Undecided>
    ensures outcome { IsOutcome (Then (spelled_grammar scanned.now) (lawful_grammar width))
        (λ c. c) result }
{
    match read_grammar(alloc, scanned) {
        Ok(grammar) => without_fault(alloc, width, grammar),
        Err(SyntaxFault::OutOfMemory) => Err(Undecided::OutOfMemory),
        Err(fault) => Err(syntax_refused(alloc, fault)),
    }
}

/// The grammar, checked.
#[tactic(auto, using(crate::proofs::reading::sections::FaultEnds::grammar_steps))]
fn without_fault(alloc: Global, width: Width, grammar: Grammar) -> Result<Checked, Undecided>
    requires readable { CanBeRead grammar }
    ensures outcome { IsOutcome (lawful_grammar width grammar) (λ c. c) result }
{
    match check_grammar(alloc, grammar, width) {
        Ok(checked) => Ok(checked),
        Err(fault) => Err(grammar_refused(alloc, &fault)),
    }
}

fn syntax_refused(alloc: Global, fault: SyntaxFault) -> Undecided
    ensures ends { Ends (answer.refused 5 (syntax_line fault)) result }
{
    let mut line = Vec::new(alloc);
    match write_syntax_fault(&mut line, fault) {
        Ok(()) => refused(Status::GRAMMAR_REFUSED, line),
        Err(_) => Undecided::OutOfMemory,
    }
}

fn grammar_refused(alloc: Global, fault: &GrammarFault) -> Undecided
    ensures ends { IsRefusalOf faults.OutOfMemory (λ f. answer.refused 5 (grammar_line f))
        fault.now result }
{
    if let GrammarFault::OutOfMemory = fault {
        return Undecided::OutOfMemory;
    }
    let mut line = Vec::new(alloc);
    match write_grammar_fault(&mut line, fault) {
        Ok(()) => refused(Status::GRAMMAR_REFUSED, line),
        Err(_) => Undecided::OutOfMemory,
    }
}
