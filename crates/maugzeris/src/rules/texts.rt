//! The texts of grammars, of their rules, and of schedules.

ghost use Rattle.std.specs.Prelude.{◌≡◌, ◌<◌, ◌≤◌, ℕ, List, Some, IfOk, length, flat_map, take};
ghost use Rattle.std.specs.Prelude.{string_bytes};
ghost use Rattle.std.specs.Str.{IsUtf8};
ghost use Rattle.ftl_answer.specs.answers.Stages.{hands_on};
ghost use Rattle.ftl_answer.specs.answers.Texts.{schedule};
ghost use Rattle.ftl_grammar.specs.printing.GrammarTokens.{grammar_text};
ghost use Rattle.ftl_grammar.specs.printing.TextOf.{IsTextOf};
ghost use Rattle.ftl_meaning.specs.faults.Checked.{all_rules};
ghost use Rattle.ftl_meaning.specs.faults.Counts.{IsSmall};
ghost use Rattle.ftl_nest_text.specs.printing.NestWritten.{nest_written_of};
ghost use Rattle.ftl_nest_text.specs.text.NestText.{nesting_schedule_text};
ghost use Rattle.maugzeris.specs.rules.Spoken.{rule_class_at, rule_text, rule_text_at};

use crate::rules::grammar::Grammar;
use crate::rules::schedules::Rules;
use crate::rules::spoken::push_rule;
use ftl_checked::Checked;
use ftl_grammar::{Class, Rule, print_grammar};
use ftl_meaning::small_counts;
use ftl_nest_text::print_schedule;
use ftl_nest_text::printing::printed_nesting_schedules;
use std::alloc::{AllocError, Global};

impl Grammar {
    /// The canonical text of the grammar, which is read as the same grammar again.
    pub fn text(&self, alloc: Global) -> Result<String, AllocError>
        ensures text { IfOk result (λ t. string_bytes t ≡ grammar_text self.now.grammar) }
        ensures reads { IfOk result (λ t. IsTextOf (string_bytes t) self.now.grammar) }
    {
        print_grammar(alloc, self.checked().grammar())
    }

    /// How many rules there are. They are numbered from 0, in the order of the text.
    pub fn rule_count(&self) -> u32
        ensures count { result ≡ length (all_rules self.now.grammar) }
    {
        self.checked().rule_count()
    }

    /// The name of the class that has a rule.
    pub fn rule_class(&self, rule: u32) -> &str
        requires rule { rule < length (all_rules self.now.grammar) }
        ensures name { result.now ≡ rule_class_at self.now.grammar rule }
    {
        let checked = self.checked();
        let class = checked.rule(rule).class;
        checked.class_name(class).text()
    }

    /// A rule as people write it, without the `;` at its end.
    pub fn rule_text(&self, alloc: Global, rule: u32) -> Result<String, AllocError>
        requires rule { rule < length (all_rules self.now.grammar) }
        ensures text { IfOk result (λ t. string_bytes t ≡ rule_text_at self.now.grammar rule) }
    {
        let mut out = String::new(alloc);
        push_rule(&mut out, written_rule(self.checked(), rule))?;
        Ok(out)
    }
}

/// The rule of a number.
fn written_rule(checked: &Checked, rule: u32) -> &Rule
    requires rule { rule < length (all_rules checked.now.grammar) }
    ensures rule { rule_text result.now ≡ rule_text_at checked.now.grammar rule }
{
    let class = checked.rule(rule).class as usize;
    let grammar = checked.grammar();
    small_counts(grammar);
    let classes = grammar.classes.as_slice();
    let place = rule as usize - rules_before(classes, class);
    &classes[class].rules.as_slice()[place]
}

/// How many rules the first classes have.
#[tactic(auto, using(ftl_checked::proofs::lookup::Standing::rule_steps))]
fn rules_before(classes: &[Class], count: usize) -> usize
    requires within { count ≤ length classes.now }
    requires small { IsSmall (length (flat_map (λ k. k.rules) classes.now)) }
    ensures rules { result ≡ length (flat_map (λ k. k.rules) (take count classes.now)) }
{
    let mut rules = 0;
    for number in 0..count {
        rules += classes[number].rules.len();
    }
    rules
}

impl<'a> Rules<'a> {
    /// The canonical text of the schedule.
    pub fn schedule_text(&self, alloc: Global) -> Result<String, AllocError>
        ensures text { IfOk result (λ t. string_bytes t ≡ nesting_schedule_text
            (nest_written_of self.now.checked.grammar self.now.schedule)) }

        // where some text is that of the schedule, so is this one
        ensures read_back { (text : List ℕ) → IsUtf8 text
            → schedule self.now.checked (Some text) (hands_on self.now.schedule) → IfOk result
            (λ t. schedule self.now.checked (Some (string_bytes t))
            (hands_on self.now.schedule)) }
    {
        printed_nesting_schedules();
        let accepted = self.schedule();
        let text = print_schedule(alloc, accepted.checked(), accepted.schedule())?;
        Ok(text)
    }
}
