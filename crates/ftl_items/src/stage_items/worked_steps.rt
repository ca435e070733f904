ghost use Rattle.std.specs.Prelude.{◌≡◌, [], ◌∷◌, length};
ghost use Rattle.ftl_model.specs.layout.Path.{top};
ghost use Rattle.ftl_model.specs.layout.Solves.{instance_of};
ghost use Rattle.ftl_model.specs.layout.Stack.{box_h, box_w, box_x, box_y, page_h, stack};
ghost use Rattle.ftl_model.specs.layout.Worked.{two_words};
ghost use Rattle.ftl_items.specs.stage_items.Items.{item, steps_of_item};
ghost use Rattle.ftl_items.specs.stage_items.StageWork.{stage_items, step_at};
ghost use Rattle.ftl_items.specs.stage_items.WorkedStages.{column_node, first_word_node};
ghost use Rattle.ftl_items.specs.stage_items.WorkedStages.{second_word_node};
ghost use Rattle.ftl_items.specs.stage_items.WorkedStages.{two_stages};

/// A law: over a sheet with a column of two words, a topdown pass that lists y before x has y
/// first, for each kid of the column from the first on; a bottomup pass beside it begins with the
/// last node of an item; an inorder pass has the heights of the words before that of the column.
pub fn steps_of_two_words()
    ensures topdown { steps_of_item stack two_stages 1 two_words 1 (item 0 column_node)
        ≡ instance_of first_word_node box_y ∷ instance_of second_word_node box_y
        ∷ instance_of first_word_node box_x ∷ instance_of second_word_node box_x ∷ [] }
    ensures bottomup { steps_of_item stack two_stages 1 two_words 3 (item 1 column_node)
        ≡ instance_of second_word_node box_w ∷ instance_of first_word_node box_w
        ∷ instance_of column_node box_w ∷ [] }
    ensures inorder { steps_of_item stack two_stages 0 two_words 1 (item 0 top)
        ≡ instance_of first_word_node box_h ∷ instance_of second_word_node box_h
        ∷ instance_of column_node box_h ∷ instance_of top page_h ∷ [] }
    ensures in_order { length (stage_items stack two_stages two_words 1 0) ≡ 1 }
    ensures step { step_at stack two_stages two_words 3 1 2 1
        ≡ instance_of first_word_node box_w }
{}
