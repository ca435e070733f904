//! Places in a worked visit, and what is left in a worked page, typed by hand.
ghost use Rattle.std.specs.Prelude.{◌≡◌, [], ◌∷◌};
ghost use Rattle.ftl_cursors.specs.inorder.InorderSteps.{kid_steps};
ghost use Rattle.ftl_cursors.specs.inorder.WorkedSteps.{runs};
ghost use Rattle.ftl_model.specs.layout.Path.{down, top};
ghost use Rattle.ftl_model.specs.layout.Stack.{box_h, box_y, page_h, stack};
ghost use Rattle.ftl_model.specs.layout.Worked.{two_words};
ghost use Rattle.ftl_cursors.specs.sequence.BlockPlaces.{places_in};
ghost use Rattle.ftl_cursors.specs.sequence.SequenceRest.{from_kid, rest_of_ops};
ghost use Rattle.ftl_cursors.specs.sequence.WorkedPlaces.{block};
ghost use Rattle.ftl_visit.specs.declared.visits.visit_op.VisitOp.TheVariants.{Begin, Rule, Visit};

/// A law: the places of two children, the second of which has no rules for its kids.
pub fn places_of_two_children()
    ensures places { places_in
        (Rule 4 ∷ Begin 0 ∷ Rule 7 ∷ Visit 0 ∷ Begin 1 ∷ Visit 1 ∷ Rule 2 ∷ [])
        ≡ block 1 3 ∷ block 4 5 ∷ [] }
{}

/// A law: over a sheet with a column of two words, what is left in an inorder pass for y and h when
/// the column is at the visit of its first word, and when it is done with the second.
pub fn rest_of_two_words()
    ensures visit { rest_of_ops stack two_words (box_h ∷ box_y ∷ page_h ∷ []) top (down 0 0 top) 0
        (Visit 0 ∷ [])
        ≡ runs 2 8 0 ∷ runs 1 6 1 ∷ runs 3 8 0 ∷ runs 1 4 0 ∷ runs 0 0 0 ∷ [] }
    ensures done { rest_of_ops stack two_words (box_h ∷ box_y ∷ page_h ∷ [])
        top (down 0 1 (down 0 0 top)) 0 [] ≡ runs 1 4 0 ∷ runs 0 0 0 ∷ [] }
{}

/// A law: over the same sheet, what is left in passes where words have no rules. In one for the
/// sheet's h nothing is done for a word, and what is left at the visit of the first is what is left
/// behind both; in one for y the column has a rule for each.
pub fn rest_of_words_without_rules()
    ensures none { kid_steps stack two_words (page_h ∷ []) (down 0 0 top) 0 1 ≡ [] }
    ensures visit { rest_of_ops stack two_words (page_h ∷ []) top (down 0 0 top) 0 (Visit 0 ∷ [])
        ≡ runs 0 0 0 ∷ [] }
    ensures behind { from_kid stack two_words (page_h ∷ []) (down 0 0 top) 0 2 (runs 0 0 0 ∷ [])
        ≡ runs 0 0 0 ∷ [] }
    ensures ruled { kid_steps stack two_words (box_y ∷ []) (down 0 0 top) 0 1
        ≡ runs 1 6 1 ∷ [] }
{}
