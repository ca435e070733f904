//! Laws that grammars without names, and names for printing, are refused where something of a
//! grammar is lost.

ghost use Rattle.std.specs.Prelude.{[], ◌∷◌};
ghost use Rattle.ftl_model.specs.layout.Values.{narrow};
ghost use Rattle.ftl_meaning.specs.grammars.GrammarOf.{grammar_of, names_of};
ghost use Rattle.ftl_meaning.specs.grammars.Worked.{shown_backwards, two};
ghost use Rattle.ftl_meaning.specs.names.Attributes.{AttributesAreCounted, SharedAreKept};
ghost use Rattle.ftl_meaning.specs.names.Attributes.{PrivateAreKept};
ghost use Rattle.ftl_meaning.specs.names.Classes.{ChildrenAreCounted, ChildInterfacesAreKept};
ghost use Rattle.ftl_meaning.specs.names.Classes.{ChildListsAreKept, ClassInterfacesAreKept};
ghost use Rattle.ftl_meaning.specs.names.Classes.{RootIsKept, ClassNamesAreKept};
ghost use Rattle.ftl_meaning.specs.names.Shown.{ShowsItsNames, ShowsItsOwn, ShowsInOrder};
ghost use Rattle.ftl_meaning.specs.names.Lossy as lossy;

/// A law: attributes that are lost, doubled, in another order, of another sort, or too many.
pub fn lost_attributes_are_refused()
    ensures lost { SharedAreKept two lossy.attribute_lost (names_of two) → ⊥ }
    ensures doubled { SharedAreKept two lossy.attributes_doubled (names_of two) → ⊥ }
    ensures swapped { SharedAreKept two lossy.attributes_swapped (names_of two) → ⊥ }
    ensures sorts { SharedAreKept two lossy.sorts_lost (names_of two) → ⊥ }
    ensures own { PrivateAreKept two lossy.own_from_zero (names_of two) → ⊥ }
    ensures more { AttributesAreCounted two lossy.one_more (names_of two) → ⊥ }
{}

/// A law: children that are lost, of another interface or a list, classes of another interface, a
/// wrong root and wrong names.
pub fn lost_classes_are_refused()
    ensures child { ChildrenAreCounted two lossy.child_lost (names_of two) → ⊥ }
    ensures kid { ChildInterfacesAreKept two lossy.children_of_one (names_of two) → ⊥ }
    ensures list { ChildListsAreKept two lossy.all_lists (names_of two) → ⊥ }
    ensures interface { ClassInterfacesAreKept two lossy.classes_of_one (names_of two) → ⊥ }
    ensures root { RootIsKept two lossy.other_root (names_of two) → ⊥ }
    ensures name { ClassNamesAreKept two lossy.right lossy.one_name → ⊥ }
{}

/// A law: shown attributes in the order of `show`, one twice, one too few or too many, and one that
/// isn't the interface's.
pub fn lost_shown_names_are_refused()
    ensures backwards { ShowsInOrder shown_backwards (grammar_of narrow shown_backwards)
        (lossy.showing (2 ∷ 0 ∷ [])) → ⊥ }
    ensures twice { ShowsInOrder shown_backwards (grammar_of narrow shown_backwards)
        (lossy.showing (0 ∷ 0 ∷ 2 ∷ [])) → ⊥ }
    ensures lost { ShowsItsNames shown_backwards (grammar_of narrow shown_backwards)
        (lossy.showing (0 ∷ [])) → ⊥ }
    ensures more { ShowsItsNames shown_backwards (grammar_of narrow shown_backwards)
        (lossy.showing (0 ∷ 1 ∷ 2 ∷ [])) → ⊥ }
    ensures foreign { ShowsItsOwn shown_backwards (grammar_of narrow shown_backwards)
        (lossy.showing (0 ∷ 2 ∷ 3 ∷ [])) → ⊥ }
{}
