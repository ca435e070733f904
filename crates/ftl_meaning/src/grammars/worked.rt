//! Laws that hold the meaning against expressions, rules and grammars that were typed out by hand.

ghost use Rattle.std.specs.Prelude.{◌≡◌, ℕ, [], ◌∷◌, pos, negsuc, map, codes};
ghost use Rattle.ftl_model.specs.layout.AttributeGrammar as model;
ghost use Rattle.ftl_model.specs.layout.AttributeGrammar.{class_inputs};
ghost use Rattle.ftl_model.specs.layout.Values.{narrow, wide, number, overflow};
ghost use Rattle.ftl_model.specs.layout.Worked.{EachHoldsIn};
ghost use Rattle.ftl_meaning.specs.faults.RuleForms.{own_slot, kid_slot};
ghost use Rattle.ftl_meaning.specs.faults.Worked as written;
ghost use Rattle.ftl_meaning.specs.grammars.GrammarOf.{grammar_of, names_of, rule_for};
ghost use Rattle.ftl_meaning.specs.grammars.Worked as worked;

/// A law: values of expressions, in both widths.
pub fn values_of_expressions()
    ensures not_taken { worked.value_in_width narrow worked.not_taken ≡ number (pos 5) }
    ensures unknown { worked.value_in_width narrow worked.unknown ≡ overflow }
    ensures known_if_wide { worked.value_in_width wide worked.unknown ≡ number (pos 5) }
    ensures taken { worked.value_in_width narrow worked.taken ≡ number (pos 5) }
    ensures too_great { worked.value_in_width narrow (written.num 2147483648) ≡ overflow }
    ensures great_if_wide { worked.value_in_width wide (written.num 2147483648)
        ≡ number (pos 2147483648) }
    ensures halved { worked.value_in_width narrow worked.halved ≡ number (negsuc 3) }
    ensures least_and_greatest { worked.value_in_width narrow worked.least_and_greatest
        ≡ number (pos 977) }
    ensures denied { worked.value_in_width narrow worked.denied ≡ number (pos 0) }
{}

/// A law: values of rules of each form, where a kid's value has the digits of its child, its number
/// and the attribute.
pub fn values_of_rules()
    ensures fold { (rule_for narrow worked.two 0 (own_slot 0)).value (worked.kids_of 2 3) 0
        worked.table ≡ number (pos 779) }
    ensures fold_from_the_default { (rule_for narrow worked.two 0 (own_slot 0)).value
        (worked.kids_of 0 3) 0 worked.table ≡ number (pos 666) }
    ensures fold_over_none { (rule_for narrow worked.two 0 (own_slot 0)).value
        (worked.kids_of 2 0) 0 worked.table ≡ number (pos 113) }
    ensures own { (rule_for narrow worked.two 0 (own_slot 8)).value (worked.kids_of 2 3) 0
        worked.table ≡ number (pos 1007) }
    ensures last { (rule_for narrow worked.two 0 (kid_slot 0 5)).value (worked.kids_of 2 3) 0
        worked.table ≡ number (pos 226) }
    ensures first { (rule_for narrow worked.two 0 (kid_slot 1 1)).value (worked.kids_of 3 3) 0
        worked.table ≡ number (pos 102) }
    ensures later { (rule_for narrow worked.two 0 (kid_slot 1 1)).value (worked.kids_of 3 3) 2
        worked.table ≡ number (pos 236) }
    ensures each { (rule_for narrow worked.two 0 (kid_slot 1 2)).value (worked.kids_of 3 3) 1
        worked.table ≡ number (pos 114) }
{}

/// A law: the parts of those rules, each with its reads in the order of the text.
pub fn parts_of_rules()
    ensures fold { (rule_for narrow worked.two 0 (own_slot 0)).parts ≡ model.fold_over 2
        (model.last_read 1 3 ∷ []) (model.each_read 2 6 ∷ model.single_read 0 6 ∷ []) }
    ensures own { (rule_for narrow worked.two 0 (own_slot 8)).parts ≡ model.plain
        (model.self_read 7 ∷ []) }
    ensures last { (rule_for narrow worked.two 0 (kid_slot 0 5)).parts ≡ model.plain
        (model.last_read 2 6 ∷ []) }
    ensures first_then { (rule_for narrow worked.two 0 (kid_slot 1 1)).parts ≡ model.first_then
        (model.this_read 1 2 ∷ []) (model.this_read 1 3 ∷ model.prev_read 1 3 ∷ []) }
    ensures each { (rule_for narrow worked.two 0 (kid_slot 1 2)).parts ≡ model.plain
        (model.this_read 1 4 ∷ []) }
    ensures chain { (rule_for narrow (written.chain_with (written.num 1)) 0 (kid_slot 0 1)).parts
        ≡ model.first_then [] (model.prev_read 0 0 ∷ model.prev_read 0 1 ∷ []) }
{}

/// A law: the numbers of that grammar, and which interface is the root.
pub fn numbers_of_a_grammar()
    ensures rules { (grammar_of narrow worked.two).rules ≡ model.for_self 0 0 ∷ model.for_self 0 8
        ∷ model.for_child 0 0 5 ∷ model.for_child 0 1 1 ∷ model.for_child 0 1 2
        ∷ model.for_child 0 2 5 ∷ model.for_self 1 3 ∷ model.for_self 2 6 ∷ [] }
    ensures sorts { map (grammar_of narrow worked.two).sort
        (0 ∷ 1 ∷ 2 ∷ 3 ∷ 4 ∷ 5 ∷ 6 ∷ 7 ∷ 8 ∷ []) ≡ model.synthesized ∷ model.inherited
        ∷ model.inherited ∷ model.synthesized ∷ model.input ∷ model.inherited ∷ model.synthesized
        ∷ model.input ∷ model.local ∷ [] }
    ensures shared { map (grammar_of narrow worked.two).shared (0 ∷ 1 ∷ 2 ∷ []) ≡ (0 ∷ [])
        ∷ (1 ∷ 2 ∷ 3 ∷ 4 ∷ []) ∷ (5 ∷ 6 ∷ []) ∷ [] }
    ensures private { map (grammar_of narrow worked.two).private (0 ∷ 1 ∷ 2 ∷ []) ≡ (7 ∷ 8 ∷ [])
        ∷ [] ∷ [] ∷ [] }
    ensures inputs { map (class_inputs (grammar_of narrow worked.two)) (0 ∷ 1 ∷ 2 ∷ []) ≡ (7 ∷ [])
        ∷ (4 ∷ []) ∷ [] ∷ [] }
    ensures children { map ((grammar_of narrow worked.two).child_interface 0) (0 ∷ 1 ∷ 2 ∷ [])
        ≡ 2 ∷ 1 ∷ 2 ∷ [] }
    ensures root { (grammar_of narrow written.root_second).root ≡ 1 }
    ensures shown { (names_of worked.shown_backwards).shown 0 ≡ 0 ∷ 2 ∷ [] }
    ensures names { map (names_of worked.two).attribute_name (0 ∷ 4 ∷ 7 ∷ []) ≡ codes "a"
        ∷ codes "i" ∷ codes "p" ∷ [] }
{}

/// A law: whole trees with their values.
pub fn tables_that_solve()
    ensures branches { EachHoldsIn (grammar_of narrow worked.branches) worked.lone_node
        worked.branches_values }
    ensures chain { EachHoldsIn (grammar_of narrow (written.chain_with (written.num 1)))
        worked.three_kids worked.three_kids_values }
{}
