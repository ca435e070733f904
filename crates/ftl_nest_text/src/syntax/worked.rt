//! Laws that hold the definitions against worked schedules and worked texts.

ghost use Rattle.ftl_tokens.specs.reading.Place.{IsFaultPlace};
ghost use Rattle.ftl_nest_text.specs.declared.syntax.types.WrittenNestingSchedule as nesting;
ghost use Rattle.ftl_nest_text.specs.syntax.NestSpelling.{SpellsNestingSchedule};
ghost use Rattle.ftl_nest_text.specs.syntax.NestWorked.{nest_behind_inorder, nest_beside};
ghost use Rattle.ftl_nest_text.specs.syntax.NestWorked.{nest_beside_tokens, nest_in_a_nest};
ghost use Rattle.ftl_nest_text.specs.syntax.NestWorked.{nest_of_a_semicolon, nest_of_none};
ghost use Rattle.ftl_nest_text.specs.syntax.NestWorked.{nest_of_none_tokens, nest_without_end};
ghost use Rattle.ftl_nest_text.specs.syntax.NestWorked.{nest_without_host, text_behind_inorder};
ghost use Rattle.ftl_nest_text.specs.syntax.NestWorked.{two_nests, two_nests_tokens};

/// A law: the tokens of three schedules spell what was typed out for them; in the last the word
/// `nest` is the name of the host.
pub fn nest_spellings_by_hand()
    ensures stages { SpellsNestingSchedule two_nests_tokens two_nests }
    ensures beside { SpellsNestingSchedule nest_beside_tokens nest_beside }
    ensures none { SpellsNestingSchedule nest_of_none_tokens nest_of_none }
{}

/// A law: no schedule is spelled where a nest follows an inorder pass, where it stands in a nest,
/// where its end or its host is missing, or where `;` stands in it alone.
pub fn no_nests_by_hand()
    ensures behind_inorder { (s : nesting.WrittenNestingSchedule)
        → SpellsNestingSchedule nest_behind_inorder s → ⊥ }
    ensures in_a_nest { (s : nesting.WrittenNestingSchedule)
        → SpellsNestingSchedule nest_in_a_nest s → ⊥ }
    ensures end { (s : nesting.WrittenNestingSchedule)
        → SpellsNestingSchedule nest_without_end s → ⊥ }
    ensures host { (s : nesting.WrittenNestingSchedule)
        → SpellsNestingSchedule nest_without_host s → ⊥ }
    ensures semicolon { (s : nesting.WrittenNestingSchedule)
        → SpellsNestingSchedule nest_of_a_semicolon s → ⊥ }
    ensures place { IsFaultPlace SpellsNestingSchedule text_behind_inorder 12 }
{}
