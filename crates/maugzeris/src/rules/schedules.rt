//! Grammars with schedules.

ghost use Rattle.std.specs.Prelude.{◌≡◌, ◌≤◌, IfOk, None, Some, string_bytes, string_len};
ghost use Rattle.std.specs.Option.{option_map};
ghost use Rattle.ftl_model.specs.layout.Limits.{most_page_bytes};
ghost use Rattle.ftl_answer.specs.answers.Texts.{schedule};
ghost use Rattle.maugzeris.specs.refusals.Answers.{Answers};
ghost use Rattle.maugzeris.specs.rules.RuleTexts.{schedule_text};

use crate::refusals::{Refusal, refusal_of, short_text};
use crate::rules::grammar::Grammar;
use ftl_answer::reading::{Undecided, automatic_schedule, written_schedule};
use ftl_nest_check::AcceptedNests;
use ftl_schedule::Accepted;
use std::alloc::Global;
use std::marker::Model;

/// A grammar, and a schedule that was accepted for it. Contracts see both.
#[derive(Drop)]
pub struct Rules<'a> {
    grammar: &'a Grammar,
    schedule: AcceptedNests<'a>,
}

impl<'a> Model for Rules<'a> {
    ghost use Rattle.std.specs.Prelude.{◌≡◌};
    ghost use Rattle.std.specs.Coded.{codes};
    ghost use Rattle.ftl_grammar.specs.contracts.syntax.expression.Expr as e;
    ghost use Rattle.ftl_nest_check.specs.check.NestAccepted.{AcceptedNestingSchedule};

    ghost Value = { AcceptedNestingSchedule };

    ghost coded = { Prim.hlevel (codes, e.the_row.coded) };

    ghost view = { λ r. r.schedule };

    ghost invariant = { λ r. r.schedule.checked ≡ r.grammar.now };
}

impl<'a> Rules<'a> {
    /// The grammar with the schedule of a text, or with the automatic one where there is no text.
    #[tactic(auto, using(crate::proofs::refusals::Ways::stage_steps))]
    pub fn new(
        alloc: Global,
        grammar: &'a Grammar,
        schedule: Option<&str>,
    ) -> Result<Rules<'a>, Refusal>
        ensures outcome { Answers
            (schedule_text grammar.now (option_map (λ s. s.now) schedule.entry))
            (λ r. r.schedule) result }
        ensures grammar { IfOk result (λ r. r.checked ≡ grammar.now) }
    {
        match schedule {
            None => with_automatic(alloc, grammar),
            Some(text) => match short_text(alloc, text) {
                Ok(text) => with_written(alloc, grammar, text),
                Err(refusal) => Err(refusal),
            },
        }
    }

    /// The grammar.
    pub fn grammar(&self) -> &'a Grammar
        ensures grammar { result.now ≡ self.now.checked }
    {
        self.grammar
    }

    /// The schedule.
    pub(crate) fn schedule(&self) -> &AcceptedNests<'a>
        ensures schedule { result.now ≡ self.now }
    {
        &self.schedule
    }

    /// The schedule without nests that computes the same values.
    pub(crate) fn flat(&self) -> &Accepted<'a>
        ensures grammar { result.now.checked ≡ self.now.checked }
    {
        self.schedule.flat()
    }
}

/// The grammar with its automatic schedule.
#[tactic(auto, using(crate::proofs::refusals::Ways::stage_steps))]
fn with_automatic<'a>(alloc: Global, grammar: &'a Grammar) -> Result<Rules<'a>, Refusal>
    ensures outcome { Answers (schedule grammar.now None) (λ r. r.schedule) result }
    ensures grammar { IfOk result (λ r. r.checked ≡ grammar.now) }
{
    match automatic_schedule(alloc, grammar.checked()) {
        Ok(schedule) => Ok(Rules { grammar, schedule }),
        Err(end) => Err(refusal_of(end)),
    }
}

/// The grammar with the schedule of a text that is not too long.
#[tactic(auto, using(crate::proofs::refusals::Ways::stage_steps))]
fn with_written<'a>(alloc: Global, grammar: &'a Grammar, text: String) -> Result<Rules<'a>, Refusal>
    requires short { string_len text ≤ most_page_bytes }
    ensures outcome { Answers (schedule grammar.now (Some (string_bytes text))) (λ r. r.schedule)
        result }
    ensures grammar { IfOk result (λ r. r.checked ≡ grammar.now) }
{
    match written_schedule(alloc, grammar.checked(), text) {
        Ok(schedule) => Ok(Rules { grammar, schedule }),
        Err(end) => Err(refusal_of(end)),
    }
}
