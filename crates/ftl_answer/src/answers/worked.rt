//! Laws that hold the answer against answers that were typed by hand.
ghost use Rattle.std.specs.Prelude.{◌≡◌, ℕ, [], ◌∷◌, codes, filter, length, negsuc, pos, Err};
ghost use Rattle.std.specs.Prelude.{None, Some};
ghost use Rattle.ftl_base.specs.declared.width.Width.{Width};
ghost use Rattle.ftl_deps.specs.reads.Meant.{meant};
ghost use Rattle.ftl_meaning.specs.faults.Checked.{CheckedGrammar};
ghost use Rattle.ftl_model.specs.layout.Boxes.{is_overflow};
ghost use Rattle.ftl_model.specs.layout.Stack.{stack};
ghost use Rattle.ftl_model.specs.layout.StackNames.{stack_names};
ghost use Rattle.ftl_model.specs.layout.Table.{value_in};
ghost use Rattle.ftl_model.specs.layout.Tree.{Forest};
ghost use Rattle.ftl_page.specs.declared.sections.fault.Section.TheVariants as section;
ghost use Rattle.ftl_step_value.specs.limits.faults.PlanFaults as plans;
ghost use Rattle.ftl_step_value.specs.declared.limits.faults.fault.PlanFault.TheVariants as plan;
ghost use Rattle.ftl_noncircular.specs.grammars.FirstCircular.{IsFirstCircular};
ghost use Rattle.ftl_noncircular.specs.grammars.Noncircular.{IsNoncircular, of_self};
ghost use Rattle.ftl_noncircular.specs.declared.search.fault.CircularFault.TheVariants as circle;
ghost use Rattle.ftl_edits.specs.declared.meaning.fault.EditFault.TheVariants as edit;
ghost use Rattle.ftl_edits.specs.syntax.Read.{IsNoEdits};
ghost use Rattle.ftl_answer.specs.refusals.CircularLines.{circular_line};
ghost use Rattle.ftl_answer.specs.refusals.EditLines.{edit_line};
ghost use Rattle.ftl_nest_check.specs.declared.stages.types.NestingSchedule.{NestingSchedule};
ghost use Rattle.ftl_nest_check.specs.stages.Nested.{nests_of};
ghost use Rattle.ftl_nests.specs.Nests.{outer_schedule};
ghost use Rattle.ftl_grammar.specs.declared.syntax.rules.Grammar.{Grammar};
ghost use Rattle.ftl_tokens.specs.declared.scanner.fault.TokenFault.TheVariants as token;
ghost use Rattle.ftl_tokens.specs.scanner.Tokenized.{WideTokenized};
ghost use Rattle.ftl_answer.specs.answers.Answer.{refused};
ghost use Rattle.ftl_answer.specs.answers.Answers.{IsAnswer};
ghost use Rattle.ftl_answer.specs.answers.Stages.{ends, hands_on};
ghost use Rattle.ftl_answer.specs.answers.Summary.{mixed, once, summary, weighted_sum};
ghost use Rattle.ftl_answer.specs.answers.Texts.{lawful_grammar, noncircular_grammar, planned_tree};
ghost use Rattle.ftl_answer.specs.answers.Texts.{scanned_as, spelled_edits};
ghost use Rattle.ftl_answer.specs.answers.Worked.{two_overflows, two_pieces, two_pieces_too_high};
ghost use Rattle.ftl_answer.specs.answers.Worked.{two_pieces_values};

/// A law: no words, and a word that is no command, are refused whatever the page is; `check`
/// refuses an empty page.
pub fn worked_refusals()
    ensures nothing { IsAnswer [] [] (refused 2 (codes "refused words")) }
    ensures unknown { IsAnswer (codes "fly" ∷ []) [] (refused 2 (codes "refused words")) }
    ensures empty_page { IsAnswer (codes "check" ∷ []) []
        (refused 4 (codes "refused page: first line is not %page 1")) }
{}

/// A law: a fault of tokens ends with the status of its section. A grammar keeps the width of its
/// page. A noncircular grammar is handed on as it is, and a circular one refused with the status of
/// grammars. A text that is no edits is refused with the status of edits. A stage that reads too
/// much is refused with the status of documents.
pub fn worked_stages()
    ensures grammar { scanned_as section.Grammar (codes "$") (Err (token.BadChar 0))
        ≡ ends (refused 5 (codes "refused grammar: bad character at 0")) }
    ensures schedule { scanned_as section.Schedule (codes "$") (Err (token.BadChar 0))
        ≡ ends (refused 6 (codes "refused schedule: bad character at 0")) }
    ensures document { scanned_as section.Document (codes "$") (Err (token.BadChar 0))
        ≡ ends (refused 7 (codes "refused document: bad character at 0")) }
    ensures edits { scanned_as section.Edits (codes "$") (Err (token.BadChar 0))
        ≡ ends (refused 10 (codes "refused edits: bad character at 0")) }
    ensures width { (width : Width) (g : Grammar) (c : CheckedGrammar)
        → lawful_grammar width g (hands_on c) → c.width ≡ width }
    ensures noncircular { (c : CheckedGrammar) → IsNoncircular (meant c)
        → noncircular_grammar c (hands_on c) }
    ensures circular { (c : CheckedGrammar) (class attr : ℕ)
        → IsFirstCircular (meant c) class (of_self attr)
        → noncircular_grammar c (ends (refused 5 (circular_line c.grammar
        (circle.Circular class None attr)))) }
    ensures no_edits { (c : CheckedGrammar) (t : Forest) (scanned : WideTokenized) (at : ℕ)
        → IsNoEdits scanned.tokenized at
        → spelled_edits c t scanned (ends (refused 10 (edit_line (edit.Syntax at)))) }
    ensures reads { (c : CheckedGrammar) (s : NestingSchedule) (t : Forest)
        → plans.first_fault (meant c) (outer_schedule (nests_of s)) t
        ≡ Some (plan.TooManyReads 2 67108865)
        → planned_tree c s t (ends (refused 7
        (codes "refused document: too many reads in stage 2: 67108865"))) }
{}

/// A law: the summary of a sample of two pieces of `stack`, whose shown values add up to 299, and
/// to 2770 where each counts by its place; Overflow adds nothing, and still has a place.
pub fn worked_summaries()
    ensures two_pieces { summary (codes "stack") stack stack_names two_pieces
        (value_in stack two_pieces two_pieces_values)
        ≡ codes "grammar=stack nodes=5 instances=21 shown=17 overflow=0 sum=299 mix=2770\n" }
    ensures too_high { summary (codes "stack") stack stack_names two_pieces
        (value_in stack two_pieces two_pieces_too_high)
        ≡ codes "grammar=stack nodes=5 instances=21 shown=17 overflow=1 sum=273 mix=2744\n" }
    ensures overflows { length (filter is_overflow two_overflows) ≡ 2 }
    ensures sum { weighted_sum once 0 two_overflows ≡ negsuc 1 }
    ensures mix { weighted_sum mixed 0 two_overflows ≡ negsuc 15 }
    ensures last_place { mixed 999 ≡ 1000 }
    ensures next_place { mixed 1000 ≡ 1 }
{}
