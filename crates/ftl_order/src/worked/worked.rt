ghost use Rattle.std.specs.Prelude.{reverse, ◌≡◌, ◌↔◌, ◌⊎◌, ℕ, List, [], ◌∷◌, Contains};
ghost use Rattle.std.specs.List.{AllByRecursion};
ghost use Rattle.ftl_model.specs.layout.Solves.{Instance, instance_of};
ghost use Rattle.ftl_model.specs.layout.Stack.{stack, stack_rules, sheet, column, word, box_y};
ghost use Rattle.ftl_model.specs.layout.Stack.{box_h};
ghost use Rattle.ftl_model.specs.layout.Stack.{word_iw};
ghost use Rattle.ftl_model.specs.layout.Table.{SolvesList};
ghost use Rattle.ftl_model.specs.layout.TreeOf.{IsTreeOf};
ghost use Rattle.ftl_model.specs.layout.AttributeGrammar.{RuleName, for_self, self_read, each_read};
ghost use Rattle.ftl_model.specs.layout.AttributeGrammar.{prev_read, last_read, plain, first_then};
ghost use Rattle.ftl_model.specs.layout.AttributeGrammar.{fold_over};
ghost use Rattle.ftl_model.specs.layout.Worked.{numbers, empty_column, two_words, two_words_values};
ghost use Rattle.ftl_order.specs.orders.Lawful.{IsLawful, PartsForSelf, PartsForChild};
ghost use Rattle.ftl_order.specs.orders.Schedule.{EachStandsOnce, placing_of};
ghost use Rattle.ftl_order.specs.orders.Sequence.{sequence};
ghost use Rattle.ftl_order.specs.orders.Reads.{Reads};
ghost use Rattle.ftl_order.specs.orders.Pairs.{Where, Writes, Pair, IsPair};
ghost use Rattle.ftl_order.specs.orders.Ordered.{IsOrdered};
ghost use Rattle.ftl_order.specs.orders.LegalOrder.{IsLegalOrder, run};
ghost use Rattle.ftl_order.specs.worked.WorkedSchedules.{sizes_then_places, places_beside};
ghost use Rattle.ftl_order.specs.worked.WorkedSchedules.{heights_topdown, places_first};
ghost use Rattle.ftl_order.specs.worked.WorkedSchedules.{width_twice, y_missing, kids_read_prev_h};
ghost use Rattle.ftl_order.specs.worked.WorkedSchedules.{sheet_reads_height, column_reads_height};
ghost use Rattle.ftl_order.specs.worked.WorkedSchedules.{stack_pairs, slanted, slanted_pair};
ghost use Rattle.ftl_order.specs.worked.WorkedSchedules.{Orders, LeavesUnordered};
ghost use Rattle.ftl_order.specs.worked.WorkedRows.{IsOrderedCase, ordered_rows, refused_rows};
ghost use Rattle.ftl_order.specs.worked.WorkedSteps.{the_column, first_word, second_word, MustBe};
ghost use Rattle.ftl_order.specs.worked.WorkedSteps.{IsFree, in_order, in_no_order};
ghost use Rattle.ftl_order.specs.worked.WorkedSteps.{two_words_inputs, two_words_order, x_first};
ghost use Rattle.ftl_order.specs.worked.WorkedSteps.{y_first, sheet_first, without_y};
ghost use Rattle.ftl_order.specs.worked.Chain.{chain, chain_topdown, chain_inorder, a_reads_b};
ghost use Rattle.ftl_order.specs.worked.Chain.{three_kids, three_kids_values, chain_order};

/// A law: the stack grammar and the chain grammar are lawful.
pub fn worked_grammars_are_lawful()
    ensures stack { IsLawful stack }
    ensures chain { IsLawful chain }
{}

/// A law: these are all pairs of a read and a writer in the stack grammar.
pub fn the_pairs_of_stack()
    ensures pairs { (pair : Pair) → IsPair stack pair ↔ Contains stack_pairs pair }
{}

/// A law: schedules that are accepted, one with passes beside each other, one with an inorder pass.
pub fn accepted_schedules()
    ensures sizes_then_places { IsOrdered stack sizes_then_places }
    ensures places_beside { IsOrdered stack places_beside }
    ensures inorder { IsOrdered chain chain_inorder }
{}

/// A law: schedules that are refused, at the pair that is not ordered, or at the attribute that
/// does not stand once.
pub fn refused_schedules()
    ensures heights_topdown { LeavesUnordered stack heights_topdown
        (column_reads_height (for_self column box_h)) }
    ensures sheet_is_ordered { Orders stack heights_topdown
        (sheet_reads_height (for_self column box_h)) }
    ensures later_stage { LeavesUnordered stack places_first
        (kids_read_prev_h (for_self column box_h)) }
    ensures other_pass { LeavesUnordered slanted places_beside slanted_pair }
    ensures topdown { LeavesUnordered chain chain_topdown a_reads_b }
    ensures inorder { Orders chain chain_inorder a_reads_b }
    ensures twice { EachStandsOnce stack width_twice → ⊥ }
    ensures missing { EachStandsOnce stack y_missing → ⊥ }
{}

/// A law: the chain's steps, kid by kid, compute its table.
pub fn a_chain_of_three()
    ensures tree { IsTreeOf chain three_kids }
    ensures sequence { sequence chain (placing_of chain_inorder) (placing_of chain_inorder 0)
        three_kids
        ≡ chain_order }
    ensures values { run chain three_kids chain_order
        (numbers (0 ∷ (0 ∷ (0 ∷ (0 ∷ (0 ∷ (0 ∷ [])))))))
        ≡ three_kids_values }
{}

/// A law: each row of the table of ordered reads for one pass, at one case or more, and that an
/// input has no writer.
pub fn rows_of_ordered_reads()
    ensures ordered { AllByRecursion IsOrderedCase ordered_rows }
    ensures refused { AllByRecursion (λ x. IsOrderedCase x → ⊥) refused_rows }
    ensures input { (runs_at : Where) (w : RuleName)
        → Writes stack word (self_read word_iw) runs_at w → ⊥ }
{}

/// A law: what steps of a column of two words read, which of them must come first, and the values
/// that they compute in a legal order.
pub fn steps_of_two_words()
    ensures fold_reads { (j : Instance) → Reads stack two_words (instance_of the_column box_h) j
        ↔ ((j ≡ instance_of first_word box_h) ⊎ (j ≡ instance_of second_word box_h)) }
    ensures prev_reads { (j : Instance) → Reads stack two_words (instance_of second_word box_y) j
        ↔ ((j ≡ instance_of first_word box_y) ⊎ (j ≡ instance_of first_word box_h)) }
    ensures in_order { AllByRecursion (MustBe sizes_then_places) in_order }
    ensures in_no_order { AllByRecursion (IsFree sizes_then_places) in_no_order }
    ensures legal { IsLegalOrder stack two_words sizes_then_places two_words_order }
    ensures values { run stack two_words two_words_order
        two_words_inputs ≡ two_words_values }
{}

/// A law: passes beside each other may be done in either order; what reads comes last, and no step
/// is left out.
pub fn legal_orders_of_an_empty_column()
    ensures x_first { IsLegalOrder stack empty_column places_beside x_first }
    ensures y_first { IsLegalOrder stack empty_column places_beside y_first }
    ensures sheet_first { IsLegalOrder stack empty_column places_beside sheet_first → ⊥ }
    ensures without_y { IsLegalOrder stack empty_column places_beside without_y → ⊥ }
{}

/// A law: the worked tables solve, so they are the only ones.
pub fn worked_tables_solve()
    ensures two_words { SolvesList stack two_words two_words_values }
    ensures three_kids { SolvesList chain three_kids three_kids_values }
{}

/// A law: parts that no lawful grammar has: `prev` for the first kid, `this` in the start of a
/// fold, `last` and a fold in rules for kids of a list, `first` for a single child.
pub fn parts_that_are_refused()
    ensures first_prev { PartsForChild chain 0 0 (first_then (prev_read 0 0 ∷ []) []) → ⊥ }
    ensures plain_prev { PartsForChild chain 0 0 (plain (prev_read 0 0 ∷ [])) → ⊥ }
    ensures start_this { PartsForSelf stack column (fold_over 0 (each_read 0 box_h ∷ []) []) → ⊥ }
    ensures list_last { PartsForChild stack column 0 (plain (last_read 0 box_h ∷ [])) → ⊥ }
    ensures list_fold { PartsForChild stack column 0 (fold_over 0 [] []) → ⊥ }
    ensures single_first { PartsForChild stack sheet 0 (first_then [] []) → ⊥ }
    ensures root_inherits { IsLawful (record stack { root = 1 }) → ⊥ }
    ensures rules_missing { IsLawful (record stack { rules = [] }) → ⊥ }
    ensures rules_turned { IsLawful (record stack { rules = reverse stack_rules }) → ⊥ }
{}
