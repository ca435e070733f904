//! What is asked of the rules of a page.

ghost use Rattle.std.specs.Prelude.{◌≡◌, ◌≤◌, length, IfOk, IfSome};
ghost use Rattle.ftl_model.specs.layout.Limits.{most_page_bytes};
ghost use Rattle.ftl_answer.specs.answers.Answers.{rules_alone};
ghost use Rattle.ftl_answer.specs.answers.Stages.{Then, ends};
ghost use Rattle.ftl_answer.specs.answers.Texts.{page, schedule};
ghost use Rattle.ftl_page.specs.sections.Texts.{HasTextsUpTo};
ghost use Rattle.ftl_nest_check.specs.stages.Known.{AreNestingStagesKnown};
ghost use Rattle.ftl_answer.specs.reading.sections.Outcomes.{answer_of};
ghost use Rattle.ftl_answer.specs.reading.requests.RulesAnswers.{EndsIn, output_text, rules_answer};
ghost use Rattle.ftl_answer.specs.reading.requests.RulesAnswers.{answer_of_page};

use crate::reading::requests::ending::ended;
use crate::reading::sections::{Decided, Status, Undecided, grammar_of, read_page, schedule_of};
use ftl_checked::Checked;
use ftl_nest_check::NestingSchedule;
use ftl_nest_text::print_schedule;
use ftl_page::{Need, Page, Text};
use std::alloc::{AllocError, Global};

/// What is asked of a grammar and a schedule.
#[derive(Clone, Copy)]
pub(crate) enum RulesOutput {
    /// Whether they are accepted.
    Verdict,
    /// The schedule as a text.
    Text,
}

/// The sections that are needed.
pub(crate) const RULES_ALONE: Need = Need {
    schedule: true,
    document: false,
    edits: false,
};

/// What is asked of the rules of a page, or its refusal.
pub(crate) fn rules_answered(
    alloc: Global,
    output: RulesOutput,
    bytes: &[u8],
) -> Result<Decided, AllocError>
    ensures outcome { IfOk result
        (λ d. Then (page rules_alone bytes.now) (answer_of_page output) (ends (answer_of d))) }
{
    ended(answer_of_bytes(alloc, output, bytes))
}

fn answer_of_bytes(alloc: Global, output: RulesOutput, bytes: &[u8]) -> Result<Decided, Undecided>
    ensures outcome { EndsIn (Then (page rules_alone bytes.now) (answer_of_page output)) result }
{
    match read_page(alloc, bytes, RULES_ALONE) {
        Ok(page) => answer_of_page(alloc, output, page),
        Err(end) => Err(end),
    }
}

fn answer_of_page(alloc: Global, output: RulesOutput, page: Page) -> Result<Decided, Undecided>
    requires short { HasTextsUpTo most_page_bytes page }
    ensures outcome { EndsIn (answer_of_page output page) result }
{
    let Page {
        width,
        grammar,
        schedule,
        document: _,
        edits: _,
    } = page;
    match grammar_of(alloc, width, grammar) {
        Ok(checked) => answer_of_grammar(alloc, output, &checked, schedule),
        Err(end) => Err(end),
    }
}

fn answer_of_grammar(
    alloc: Global,
    output: RulesOutput,
    checked: &Checked,
    text: Option<Text>,
) -> Result<Decided, Undecided>
    requires short { IfSome text (λ t. length t ≤ most_page_bytes) }
    ensures outcome { EndsIn (Then (schedule checked.now text) (rules_answer output checked.now))
        result }
{
    match schedule_of(alloc, checked, text) {
        Ok(accepted) => answer_of_rules(alloc, output, checked, accepted.schedule()),
        Err(end) => Err(end),
    }
}

fn answer_of_rules(
    alloc: Global,
    output: RulesOutput,
    checked: &Checked,
    schedule: &NestingSchedule,
) -> Result<Decided, Undecided>
    requires known { AreNestingStagesKnown checked.now.grammar schedule.now.stages }
    ensures outcome { EndsIn (rules_answer output checked.now schedule.now) result }
{
    Ok(Decided {
        status: Status::DONE,
        text: output_text(alloc, output, checked, schedule)?,
    })
}

fn output_text(
    alloc: Global,
    output: RulesOutput,
    checked: &Checked,
    schedule: &NestingSchedule,
) -> Result<Vec<u8>, AllocError>
    requires known { AreNestingStagesKnown checked.now.grammar schedule.now.stages }
    ensures text { IfOk result (λ v. v.items ≡ output_text output checked.now schedule.now) }
{
    match output {
        RulesOutput::Verdict => Vec::from_slice(alloc, b"accepted\n"),
        RulesOutput::Text => Ok(print_schedule(alloc, checked, schedule)?.into_bytes()),
    }
}
