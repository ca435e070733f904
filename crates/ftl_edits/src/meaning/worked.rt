//! A law that holds the meaning of edits against edits that were typed out by hand.

ghost use Rattle.std.specs.Prelude.{◌≡◌, [], ◌∷◌, pos, negsuc, Ok, Err};
ghost use Rattle.ftl_edits.specs.declared.meaning.fault.EditFault.TheVariants.{UnknownInput};
ghost use Rattle.ftl_edits.specs.declared.meaning.fault.EditFault.TheVariants.{UnknownNode};
ghost use Rattle.ftl_edits.specs.meaning.Meaning.{edits_of};
ghost use Rattle.ftl_edits.specs.meaning.Worked as worked;
ghost use Rattle.ftl_edits.specs.meaning.Worked.{edit, two_words, plain_screen, wider_word};

/// A law: what edits stand for at two trees, whose attributes are numbered interface by interface
/// and then class by class, and the first fault of edits that are faulty.
pub fn worked_meanings()
    ensures none { edits_of two_words [] ≡ Ok [] }
    ensures one { edits_of two_words (wider_word ∷ []) ≡ Ok (edit 2 5 (pos 50) ∷ []) }
    ensures of_both_owners { edits_of plain_screen worked.screen_edits ≡ Ok (edit 0 4 (negsuc 8)
        ∷ edit 2 1 (pos 8) ∷ edit 2 5 (pos 0) ∷ edit 0 0 (pos 5) ∷ []) }
    ensures node { edits_of two_words (worked.fifth_node ∷ []) ≡ Err (UnknownNode 1) }
    ensures far { edits_of two_words (wider_word ∷ worked.far_node ∷ []) ≡ Err (UnknownNode 2) }
    ensures other_class { edits_of two_words (worked.column_width ∷ []) ≡ Err (UnknownInput 1) }
    ensures child { edits_of two_words (worked.child_number ∷ []) ≡ Err (UnknownInput 1) }
    ensures first { edits_of two_words (wider_word ∷ worked.computed_width ∷ worked.fifth_node
        ∷ []) ≡ Err (UnknownInput 2) }
{}
