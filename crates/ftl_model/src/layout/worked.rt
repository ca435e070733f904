ghost use Rattle.std.specs.Prelude.{◌≡◌, List, [], ◌∷◌, ◌++◌, codes, pos, IsTrue, true, false};
ghost use Rattle.ftl_model.specs.layout.Values.{wide};
ghost use Rattle.ftl_model.specs.layout.AttributeGrammar.{own, kid, read_occurrences};
ghost use Rattle.ftl_model.specs.layout.Boxes.{boxes, shows_overflow};
ghost use Rattle.ftl_model.specs.layout.Stack.{stack, stack_in, word_iw, word_ih};
ghost use Rattle.ftl_model.specs.layout.Notes.{notes, two_items, two_items_values, no_items};
ghost use Rattle.ftl_model.specs.layout.Notes.{no_items_values, total_rule, shift_rule, x_rule};
ghost use Rattle.ftl_model.specs.layout.StackNames.{stack_names};
ghost use Rattle.ftl_model.specs.layout.Table.{value_in};
ghost use Rattle.ftl_model.specs.layout.Tree.{none};
ghost use Rattle.ftl_model.specs.layout.TreeOf.{IsTreeOf};
ghost use Rattle.ftl_model.specs.layout.WithInput.{with_input};
ghost use Rattle.ftl_model.specs.layout.Worked.{EachHolds, EachHoldsIn, wide_words_values};
ghost use Rattle.ftl_model.specs.layout.Worked.{highest_words};
ghost use Rattle.ftl_model.specs.layout.Worked.{highest_words_values, highest_wide_values};
ghost use Rattle.ftl_model.specs.layout.Worked.{widest_words};
ghost use Rattle.ftl_model.specs.layout.Worked.{widest_words_values, too_low, no_body, two_bodies};
ghost use Rattle.ftl_model.specs.layout.Worked.{sheet_in_sheet, two_words, two_words_values};
ghost use Rattle.ftl_model.specs.layout.Worked.{empty_column};
ghost use Rattle.ftl_model.specs.layout.Worked.{numbers, tall_words, tall_words_values};
ghost use Rattle.ftl_model.specs.layout.Worked.{nested_columns};
ghost use Rattle.ftl_model.specs.layout.Worked.{nested_columns_values, greatest_words};
ghost use Rattle.ftl_model.specs.layout.Worked.{column_of, greatest_words_values, sheet_over};
ghost use Rattle.ftl_model.specs.layout.Worked.{word_of_size};

/// A law: the values of a column of two words hold each equation, and this is how they are printed.
pub fn a_column_of_two_words()
    ensures tree { IsTreeOf stack two_words }
    ensures equations { EachHolds two_words two_words_values }
    ensures text { boxes stack_names two_words (value_in stack two_words two_words_values)
        ≡ codes "0 Sheet h=25\n1 Column x=0 y=0 w=30 h=25\n2 Word x=0 y=0 w=20 h=10\n"
        ++ codes "3 Word x=0 y=10 w=30 h=15\n" }
    ensures in_range { shows_overflow stack_names two_words
        (value_in stack two_words two_words_values) ≡ false }
{}

/// A law: of two words, which are nodes 2 and 3, one gets another width or height.
pub fn words_of_another_size()
    ensures wider { with_input stack two_words 3 word_iw (pos 70)
        ≡ sheet_over (column_of (word_of_size 20 10 (word_of_size 70 15 none)) none) }
    ensures higher { with_input stack two_words 2 word_ih (pos 40)
        ≡ sheet_over (column_of (word_of_size 20 40 (word_of_size 30 15 none)) none) }
{}

/// A law: an empty column has no size.
pub fn an_empty_column()
    ensures tree { IsTreeOf stack empty_column }
    ensures equations { EachHolds empty_column (numbers (0 ∷ (0 ∷ (0 ∷ (0 ∷ (0 ∷ [])))))) }
    ensures text { boxes stack_names empty_column
        (value_in stack empty_column (numbers (0 ∷ (0 ∷ (0 ∷ (0 ∷ (0 ∷ [])))))))
        ≡ codes "0 Sheet h=0\n1 Column x=0 y=0 w=0 h=0\n" }
    ensures in_range { shows_overflow stack_names empty_column
        (value_in stack empty_column (numbers (0 ∷ (0 ∷ (0 ∷ (0 ∷ (0 ∷ []))))))) ≡ false }
{}

/// A law: heights that add up to more than the greatest number overflow, and are printed so.
pub fn overflowing_heights()
    ensures tree { IsTreeOf stack tall_words }
    ensures equations { EachHolds tall_words tall_words_values }
    ensures text { boxes stack_names tall_words (value_in stack tall_words tall_words_values)
        ≡ codes "0 Sheet h=overflow\n1 Column x=0 y=0 w=1 h=overflow\n2 Word x=0 y=0 w=1 h=1\n"
        ++ codes "3 Word x=0 y=1 w=1 h=2147483647\n" }
    ensures out_of_range { shows_overflow stack_names tall_words
        (value_in stack tall_words tall_words_values) ≡ true }
{}

/// A law: columns and words stand below each other in a column, each column as high as its kids.
pub fn columns_in_a_column()
    ensures tree { IsTreeOf stack nested_columns }
    ensures equations { EachHolds nested_columns nested_columns_values }
    ensures text { boxes stack_names nested_columns
        (value_in stack nested_columns nested_columns_values)
        ≡ codes "0 Sheet h=15\n1 Column x=0 y=0 w=9 h=15\n2 Column x=0 y=0 w=9 h=3\n"
        ++ codes "3 Word x=0 y=0 w=5 h=1\n4 Word x=0 y=1 w=9 h=2\n5 Word x=0 y=3 w=3 h=4\n"
        ++ codes "6 Column x=0 y=7 w=2 h=8\n7 Word x=0 y=7 w=2 h=8\n" }
    ensures in_range { shows_overflow stack_names nested_columns
        (value_in stack nested_columns nested_columns_values) ≡ false }
{}

/// A law: a box that stands below too many pixels has no place.
pub fn an_overflowing_place()
    ensures tree { IsTreeOf stack greatest_words }
    ensures equations { EachHolds greatest_words greatest_words_values }
    ensures text { boxes stack_names greatest_words
        (value_in stack greatest_words greatest_words_values)
        ≡ codes "0 Sheet h=overflow\n1 Column x=0 y=0 w=1 h=overflow\n"
        ++ codes "2 Word x=0 y=0 w=1 h=2147483647\n3 Word x=0 y=2147483647 w=1 h=2147483647\n"
        ++ codes "4 Word x=0 y=overflow w=1 h=5\n" }
    ensures out_of_range { shows_overflow stack_names greatest_words
        (value_in stack greatest_words greatest_words_values) ≡ true }
{}

/// A law: on a wide page the same heights add up, and are printed.
pub fn heights_of_a_wide_page()
    ensures tree { IsTreeOf (stack_in wide) tall_words }
    ensures equations { EachHoldsIn (stack_in wide) tall_words wide_words_values }
    ensures text { boxes stack_names tall_words
        (value_in (stack_in wide) tall_words wide_words_values)
        ≡ codes "0 Sheet h=2147483648\n1 Column x=0 y=0 w=1 h=2147483648\n"
        ++ codes "2 Word x=0 y=0 w=1 h=1\n3 Word x=0 y=1 w=1 h=2147483647\n" }
{}

/// A law: the values of a grammar with a local, two children, `this`, `prev`, `last`, a fold that
/// reads the node itself, and a negative input; once with two kids and once with none.
pub fn a_sheet_with_a_note()
    ensures tree { IsTreeOf notes two_items }
    ensures equations { EachHoldsIn notes two_items two_items_values }
    ensures empty_tree { IsTreeOf notes no_items }
    ensures empty_equations { EachHoldsIn notes no_items no_items_values }
{}

/// A law: what rules read, in the order of the text: a fold reads its step once for each kid, and
/// so the node itself as often; `prev` reads nothing for the first kid, `last` nothing where there
/// is no kid.
pub fn reads_of_a_sheet_with_a_note()
    ensures fold { read_occurrences total_rule.parts (λ c. 2) 0
        ≡ kid 1 0 2 ∷ own 7 ∷ kid 1 1 2 ∷ own 7 ∷ [] }
    ensures empty_fold { read_occurrences total_rule.parts (λ c. 0) 0 ≡ [] }
    ensures last { read_occurrences shift_rule.parts (λ c. 3) 0 ≡ kid 1 2 2 ∷ [] }
    ensures no_last { read_occurrences shift_rule.parts (λ c. 0) 0 ≡ [] }
    ensures first { read_occurrences x_rule.parts (λ c. 2) 0 ≡ own 7 ∷ [] }
    ensures later { read_occurrences x_rule.parts (λ c. 2) 1
        ≡ kid 1 0 1 ∷ kid 1 0 2 ∷ kid 1 1 3 ∷ [] }
{}

/// A law: two words of the greatest height overflow a narrow page and add up on a wide one, and a
/// wide page overflows at its own greatest number.
pub fn highest_words_of_both_widths()
    ensures equations { EachHolds highest_words highest_words_values }
    ensures text { boxes stack_names highest_words
        (value_in stack highest_words highest_words_values)
        ≡ codes "0 Sheet h=overflow\n1 Column x=0 y=0 w=1 h=overflow\n"
        ++ codes "2 Word x=0 y=0 w=1 h=2147483647\n3 Word x=0 y=2147483647 w=1 h=2147483647\n" }
    ensures wide { EachHoldsIn (stack_in wide) highest_words highest_wide_values }
    ensures wide_text { boxes stack_names highest_words
        (value_in (stack_in wide) highest_words highest_wide_values)
        ≡ codes "0 Sheet h=4294967294\n1 Column x=0 y=0 w=1 h=4294967294\n"
        ++ codes "2 Word x=0 y=0 w=1 h=2147483647\n3 Word x=0 y=2147483647 w=1 h=2147483647\n" }
    ensures widest { EachHoldsIn (stack_in wide) widest_words widest_words_values }
    ensures widest_text { boxes stack_names widest_words
        (value_in (stack_in wide) widest_words widest_words_values)
        ≡ codes "0 Sheet h=overflow\n1 Column x=0 y=0 w=1 h=overflow\n"
        ++ codes "2 Word x=0 y=0 w=1 h=140737488355327\n3 Word x=0 y=140737488355327 w=1 h=1\n" }
{}

/// A law: these are no trees of the grammar.
pub fn trees_that_are_refused()
    ensures too_low { IsTreeOf stack too_low → ⊥ }
    ensures no_body { IsTreeOf stack no_body → ⊥ }
    ensures two_bodies { IsTreeOf stack two_bodies → ⊥ }
    ensures sheet_in_sheet { IsTreeOf stack sheet_in_sheet → ⊥ }
    ensures wide_page { IsTreeOf (stack_in wide) too_low }
{}
