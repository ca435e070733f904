//! Laws that hold what rules read of neighbours against lists that were typed out by hand.
ghost use Rattle.std.specs.Prelude.{◌≡◌, [], ◌∷◌, Some, None};
ghost use Rattle.ftl_model.specs.layout.AttributeGrammar.{each_read, first_then, fold_over};
ghost use Rattle.ftl_model.specs.layout.AttributeGrammar.{last_read};
ghost use Rattle.ftl_model.specs.layout.AttributeGrammar.{plain, prev_read, self_read, single_read};
ghost use Rattle.ftl_model.specs.layout.AttributeGrammar.{this_read};
ghost use Rattle.ftl_model.specs.layout.Notes.{notes};
ghost use Rattle.ftl_step_value.specs.neighbours.NeighbourParts.{neighbour_table};
ghost use Rattle.ftl_step_value.specs.neighbours.Worked.{before, here, kid, notes_parts};
ghost use Rattle.ftl_step_value.specs.neighbours.Worked.{notes_places, worked_parts};
ghost use Rattle.ftl_step_value.specs.declared.neighbours.parts.NeighbourParts.TheVariants.{Own};
ghost use Rattle.ftl_step_value.specs.declared.neighbours.parts.NeighbourParts.TheVariants.{Kids};
ghost use Rattle.ftl_step_value.specs.declared.neighbours.parts.NeighbourParts.TheVariants.{Fold};
ghost use Rattle.ftl_step_value.specs.declared.neighbours.parts.NeighbourParts.TheVariants.{Far};
ghost use Rattle.ftl_tree.specs.rows.ClassRows.{AreAttributePlaces};

/// A law: the places of the attributes of the grammar of notes.
pub fn places_of_notes()
    ensures places { AreAttributePlaces notes notes_places }
{}

/// A law: what each rule of the grammar of notes reads of neighbours, in each form.
pub fn parts_of_notes()
    ensures parts { neighbour_table notes_places notes ≡ notes_parts }
{}

/// A law: what is a neighbour, and what is not, in a rule of each form. Children 1 and 2, and
/// attributes 3 to 6, of which 3 to 5 have places.
pub fn parts_of_each_form()
    ensures own { worked_parts None (plain (self_read 3 ∷ self_read 4 ∷ []))
        ≡ Own (here 7 ∷ here 8 ∷ []) }
    ensures kids { worked_parts (Some 1) (plain (this_read 1 3 ∷ self_read 4 ∷ []))
        ≡ Kids 1 (kid 7 ∷ here 8 ∷ []) (kid 7 ∷ here 8 ∷ []) }
    ensures later_kids { worked_parts (Some 1)
        (first_then (this_read 1 3 ∷ []) (prev_read 1 4 ∷ []))
        ≡ Kids 1 (kid 7 ∷ []) (before 8 ∷ []) }
    ensures fold { worked_parts None (fold_over 1 (self_read 3 ∷ []) (each_read 1 4 ∷ []))
        ≡ Fold 1 (here 7 ∷ []) (kid 8 ∷ []) }
    ensures fold_for_kids { worked_parts (Some 2) (fold_over 1 [] (each_read 1 4 ∷ []))
        ≡ Fold 1 [] (kid 8 ∷ []) }
    ensures own_of_two { worked_parts None (first_then [] []) ≡ Far }
    ensures another { worked_parts (Some 1) (plain (this_read 2 3 ∷ [])) ≡ Far }
    ensures prev_at_first { worked_parts (Some 1) (first_then (prev_read 1 3 ∷ []) []) ≡ Far }
    ensures prev_in_plain { worked_parts (Some 1) (plain (prev_read 1 3 ∷ [])) ≡ Far }
    ensures prev_of_another { worked_parts (Some 1) (first_then [] (prev_read 2 3 ∷ []))
        ≡ Far }
    ensures prev_in_fold { worked_parts None (fold_over 1 [] (prev_read 1 3 ∷ [])) ≡ Far }
    ensures fold_of_another { worked_parts None (fold_over 1 [] (each_read 2 3 ∷ [])) ≡ Far }
    ensures kid_in_start { worked_parts None (fold_over 1 (each_read 1 3 ∷ []) []) ≡ Far }
    ensures single { worked_parts None (plain (self_read 3 ∷ single_read 1 4 ∷ [])) ≡ Far }
    ensures no_place { worked_parts None
        (plain (self_read 3 ∷ self_read 6 ∷ [])) ≡ Far }
    ensures last { worked_parts (Some 1) (plain (last_read 1 3 ∷ [])) ≡ Far }
{}
