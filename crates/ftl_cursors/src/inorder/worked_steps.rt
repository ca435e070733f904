//! The steps of a worked page, typed by hand.
ghost use Rattle.std.specs.Prelude.{◌≡◌, [], ◌∷◌};
ghost use Rattle.ftl_model.specs.layout.Path.{top};
ghost use Rattle.ftl_model.specs.layout.Stack.{box_h, box_y, page_h, stack};
ghost use Rattle.ftl_model.specs.layout.Worked.{two_words};
ghost use Rattle.ftl_cursors.specs.inorder.InorderSteps.{inorder_steps};
ghost use Rattle.ftl_cursors.specs.inorder.WorkedSteps.{two_words_steps};

/// A law: over a sheet with a column of two words an inorder pass for y and h goes down and up.
pub fn inorder_steps_of_two_words()
    ensures steps { inorder_steps stack two_words (box_h ∷ box_y ∷ page_h ∷ []) top
        ≡ two_words_steps }
{}
