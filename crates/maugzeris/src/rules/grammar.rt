//! Grammars with the code of their rules.

ghost use Rattle.std.specs.Prelude.{◌≡◌, ◌<◌, ◌≤◌, IfOk, string_bytes, string_len};
ghost use Rattle.ftl_model.specs.layout.Limits.{most_page_bytes};
ghost use Rattle.ftl_answer.specs.answers.Texts.{grammar};
ghost use Rattle.ftl_deps.specs.reads.Meant.{meant};
ghost use Rattle.ftl_model.specs.layout.AttributeGrammar.{attributes_of};
ghost use Rattle.ftl_step_value.specs.value.StepValue.{IsCodeFor};
ghost use Rattle.ftl_tree.specs.boxes.Shows.{shown_rows};
ghost use Rattle.maugzeris.specs.refusals.Answers.{Answers};
ghost use Rattle.maugzeris.specs.rules.RuleTexts.{grammar_text};

use crate::refusals::{Refusal, refusal_of, short_text};
use ftl_answer::reading::grammar_of_text;
use ftl_base::Width;
use ftl_checked::Checked;
use ftl_tree::shown_rows;
use ftl_visit::rule_tables::class_attributes;
use ftl_visit::{Programs, compile};
use sqlite_items::Items;
use std::alloc::{AllocError, Global};
use std::marker::Model;

/// A lawful grammar in a width, with the code of its rules. Contracts see the grammar and the
/// width.
#[derive(Drop)]
pub struct Grammar {
    checked: Checked,
    programs: Programs,
    attributes: Items<Items<u32>>,
    shown: Items<Items<u32>>,
}

impl Model for Grammar {
    ghost use Rattle.std.specs.Coded.{codes};
    ghost use Rattle.ftl_grammar.specs.contracts.syntax.expression.Expr as e;
    ghost use Rattle.ftl_meaning.specs.faults.Checked.{CheckedGrammar};
    ghost use Rattle.maugzeris.specs.rules.Kept.{IsKept};

    ghost Value = { CheckedGrammar };

    ghost coded = { Prim.hlevel (codes, e.the_row.coded) };

    ghost view = { λ g. g.checked };

    ghost invariant = { λ g. IsKept g.checked g.programs g.attributes g.shown };
}

impl Grammar {
    /// The grammar of a text.
    #[tactic(auto, using(crate::proofs::refusals::Ways::stage_steps))]
    pub fn new(alloc: Global, text: &str, width: Width) -> Result<Grammar, Refusal>
        ensures outcome { Answers (grammar_text width text.now) (λ g. g) result }
    {
        match short_text(alloc, text) {
            Ok(text) => of_text(alloc, text, width),
            Err(refusal) => Err(refusal),
        }
    }

    /// The grammar with its numbers.
    pub(crate) fn checked(&self) -> &Checked
        ensures checked { result.now ≡ self.now }
    {
        &self.checked
    }

    /// The code of the rules.
    pub(crate) fn programs(&self) -> &Programs
        ensures code { IsCodeFor self.now result.now }
    {
        &self.programs
    }

    /// The attributes of a class: those of its interface, then its own.
    pub(crate) fn attributes(&self, class: u32) -> &[u32]
        requires class { class < (meant self.now).class_count }
        ensures attributes { result.now ≡ attributes_of (meant self.now) class }
    {
        self.attributes.as_slice()[class as usize].as_slice()
    }

    /// What each interface shows.
    pub(crate) fn shown(&self) -> &Items<Items<u32>>
        ensures shown { result.now ≡ shown_rows self.now.grammar }
    {
        &self.shown
    }
}

/// The grammar of a text that is not too long.
#[tactic(auto, using(crate::proofs::refusals::Ways::stage_steps))]
fn of_text(alloc: Global, text: String, width: Width) -> Result<Grammar, Refusal>
    requires short { string_len text ≤ most_page_bytes }
    ensures outcome { Answers (grammar width (string_bytes text)) (λ g. g) result }
{
    match grammar_of_text(alloc, width, text) {
        Ok(checked) => Ok(with_code(alloc, checked)?),
        Err(end) => Err(refusal_of(end)),
    }
}

/// A grammar with the code of its rules.
fn with_code(alloc: Global, checked: Checked) -> Result<Grammar, AllocError>
    ensures grammar { IfOk result (λ g. g ≡ checked) }
{
    let programs = compile(alloc, &checked)?;
    let attributes = class_attributes(alloc, &checked)?;
    let shown = shown_rows(alloc, &checked)?;
    Ok(Grammar {
        checked,
        programs,
        attributes,
        shown,
    })
}
