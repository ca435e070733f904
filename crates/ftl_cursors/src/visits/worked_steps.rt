//! The steps of a worked page, typed by hand.
ghost use Rattle.std.specs.Prelude.{◌≡◌, [], ◌∷◌};
ghost use Rattle.ftl_model.specs.layout.Stack.{box_h, box_w, box_x, box_y, page_h, stack};
ghost use Rattle.ftl_model.specs.layout.Worked.{two_words};
ghost use Rattle.ftl_schedule.specs.declared.syntax.kind.PassKind.TheVariants.{BottomUp, TopDown};
ghost use Rattle.ftl_visit.specs.passes.VisitRows.{visits_of};
ghost use Rattle.ftl_cursors.specs.visits.NodeRanges.{nodes_in};
ghost use Rattle.ftl_cursors.specs.visits.VisitSteps.{step, steps_of_nodes};
ghost use Rattle.ftl_cursors.specs.declared.visits.nodes.NodeOrder.TheVariants.{Preorder, Reverse};

/// A law: over a sheet with a column of two words, where a pass lists y before x, and h before w,
/// rules run by key and not by number, kids first to last, and `Reverse` begins with the last node.
pub fn steps_of_two_words()
    ensures topdown { steps_of_nodes stack two_words
        (visits_of stack TopDown (box_y ∷ box_x ∷ [])) (nodes_in Preorder 0 4)
        ≡ step 0 2 0 ∷ step 0 1 0
        ∷ step 1 6 0 ∷ step 1 6 1 ∷ step 1 5 0 ∷ step 1 5 1 ∷ [] }
    ensures bottomup { steps_of_nodes stack two_words
        (visits_of stack BottomUp (box_h ∷ box_w ∷ page_h ∷ [])) (nodes_in Reverse 0 4)
        ≡ step 3 8 0 ∷ step 3 7 0 ∷ step 2 8 0 ∷ step 2 7 0
        ∷ step 1 4 0 ∷ step 1 3 0 ∷ step 0 0 0 ∷ [] }
    ensures part { steps_of_nodes stack two_words
        (visits_of stack BottomUp (box_h ∷ box_w ∷ page_h ∷ [])) (nodes_in Reverse 1 2)
        ≡ step 2 8 0 ∷ step 2 7 0 ∷ step 1 4 0 ∷ step 1 3 0 ∷ [] }
{}
