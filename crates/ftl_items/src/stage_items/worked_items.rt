ghost use Rattle.std.specs.Prelude.{◌≡◌, [], ◌∷◌, length};
ghost use Rattle.ftl_model.specs.layout.Path.{top, down};
ghost use Rattle.ftl_model.specs.layout.Worked.{two_words};
ghost use Rattle.ftl_order.specs.orders.Schedule.{topdown, bottomup, inorder};
ghost use Rattle.ftl_items.specs.stage_items.Cut.{tops, nodes_of};
ghost use Rattle.ftl_items.specs.stage_items.Items.{items};

/// A law: a sheet over a column of two words has 4 items at grains 1 and 2, two at grain 3, where
/// the column's tree is exactly the grain, and one at grain 4.
pub fn items_of_two_words()
    ensures one { tops topdown two_words 1
        ≡ top ∷ down 0 0 top ∷ down 0 0 (down 0 0 top) ∷ down 0 1 (down 0 0 top) ∷ [] }
    ensures two { tops topdown two_words 2
        ≡ top ∷ down 0 0 top ∷ down 0 0 (down 0 0 top) ∷ down 0 1 (down 0 0 top) ∷ [] }
    ensures three { tops topdown two_words 3 ≡ top ∷ down 0 0 top ∷ [] }
    ensures column { nodes_of two_words 3 (down 0 0 top)
        ≡ down 0 0 top ∷ down 0 0 (down 0 0 top) ∷ down 0 1 (down 0 0 top) ∷ [] }
    ensures four { tops topdown two_words 4 ≡ top ∷ [] }
    ensures turned { tops bottomup two_words 2
        ≡ down 0 1 (down 0 0 top) ∷ down 0 0 (down 0 0 top) ∷ down 0 0 top ∷ top ∷ [] }
    ensures stage_of_one { length (items (record { kind = bottomup; attributes = [] } ∷ [])
        two_words 1) ≡ 4 }
    ensures stage_of_two { length (items (record { kind = bottomup; attributes = [] } ∷ [])
        two_words 2) ≡ 4 }
    ensures stage_of_four { length (items (record { kind = bottomup; attributes = [] } ∷ [])
        two_words 4) ≡ 1 }
    ensures in_order { tops inorder two_words 1 ≡ top ∷ [] }
{}
