//! Laws that hold the definitions against worked rules and worked places.

ghost use Rattle.ftl_tokens.specs.reading.Place.{IsFaultPlace};
ghost use Rattle.ftl_grammar.specs.syntax.GrammarSpelling.{SpellsRule, SpellsGrammar};
ghost use Rattle.ftl_grammar.specs.syntax.Worked.{first_then_tokens, first_then_rule, fold_tokens};
ghost use Rattle.ftl_grammar.specs.syntax.Worked.{fold_rule, sum_tokens, sum_rule, choice_tokens};
ghost use Rattle.ftl_grammar.specs.syntax.Worked.{choice_rule, root_without_name, root_alone};
ghost use Rattle.ftl_grammar.specs.syntax.Worked.{no_tokens};

/// A law: the tokens of four rules spell the syntax trees that were typed out for them.
pub fn worked_rules()
    ensures first_then { SpellsRule first_then_tokens first_then_rule }
    ensures fold { SpellsRule fold_tokens fold_rule }
    ensures sum { SpellsRule sum_tokens sum_rule }
    ensures choice { SpellsRule choice_tokens choice_rule }
{}

/// A law: where three texts that spell no grammar go wrong: at the token after the longest front,
/// at the end of the last token, and at 0 where there is none.
pub fn worked_places()
    ensures next { IsFaultPlace SpellsGrammar root_without_name 5 }
    ensures end { IsFaultPlace SpellsGrammar root_alone 5 }
    ensures start { IsFaultPlace SpellsGrammar no_tokens 0 }
{}
