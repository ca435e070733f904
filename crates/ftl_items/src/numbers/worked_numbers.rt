ghost use Rattle.std.specs.Prelude.{◌≡◌, [], ◌∷◌};
ghost use Rattle.ftl_items.specs.numbers.ItemNumbers.{items_before, next_numbers, place_in_pass};
ghost use Rattle.ftl_items.specs.numbers.ItemNumbers.{all_kids, predecessor_numbers, start_of_pass};
ghost use Rattle.ftl_items.specs.stage_items.Items.{items, nexts, predecessors};
ghost use Rattle.ftl_model.specs.layout.Path.{down, top};
ghost use Rattle.ftl_model.specs.layout.Stack.{stack};
ghost use Rattle.ftl_model.specs.layout.Worked.{two_words};
ghost use Rattle.ftl_order.specs.orders.Schedule.{bottomup, inorder, topdown};

/// A law: the numbers of items of a sheet over a column of two words, in stages of three passes.
pub fn numbers_of_two_words()
    ensures kids { all_kids stack two_words (down 0 0 top) ≡ 2 ∷ 3 ∷ [] }
    ensures before_one { items_before two_words 1 3 ≡ 3 }
    ensures before_three { items_before two_words 3 3 ≡ 2 }
    ensures last_is_first { place_in_pass bottomup two_words 1 (down 0 1 (down 0 0 top)) ≡ 0 }
    ensures second_pass { start_of_pass (record { kind = topdown; attributes = [] }
        ∷ record { kind = inorder; attributes = [] } ∷ []) two_words 1 1 ≡ 4 }
    ensures third_pass { start_of_pass (record { kind = topdown; attributes = [] }
        ∷ record { kind = inorder; attributes = [] } ∷ []) two_words 1 2 ≡ 5 }
    ensures down { next_numbers topdown stack two_words 1 5 (down 0 0 top) ≡ 7 ∷ 8 ∷ [] }
    ensures whole { next_numbers topdown stack two_words 3 5 (down 0 0 top) ≡ [] }
    ensures up { next_numbers bottomup stack two_words 1 5 (down 0 0 top) ≡ 8 ∷ [] }
    ensures from_below { predecessor_numbers bottomup stack two_words 1 5 (down 0 0 top)
        ≡ 5 ∷ 6 ∷ [] }
    ensures items_down { nexts (record { kind = inorder; attributes = [] }
        ∷ record { kind = topdown; attributes = [] } ∷ []) (items
        (record { kind = inorder; attributes = [] }
        ∷ record { kind = topdown; attributes = [] } ∷ []) two_words 1) 2 ≡ 3 ∷ 4 ∷ [] }
    ensures items_from_below { predecessors (record { kind = inorder; attributes = [] }
        ∷ record { kind = bottomup; attributes = [] } ∷ []) (items
        (record { kind = inorder; attributes = [] }
        ∷ record { kind = bottomup; attributes = [] } ∷ []) two_words 1) 3 ≡ 1 ∷ 2 ∷ [] }
{}
