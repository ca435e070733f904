//! Laws of trees with other inputs.

ghost use Rattle.std.specs.Prelude.{◌≡◌, pos, [], ◌∷◌};
ghost use Rattle.ftl_model.specs.layout.Tree.{none, tree};
ghost use Rattle.ftl_tree.specs.trees.Bare.{bare};
ghost use Rattle.ftl_tree.specs.trees.WithInput.{ChangesOneInput, changed, with_inputs};

/// A law: a tree with another number for an input is changed there, and nowhere else.
pub fn one_input_changes()
    ensures one { ChangesOneInput }
{}

/// A law: of two words in a column, the second, which is node 3, gets another width.
pub fn second_word_is_wider()
    ensures wider { with_inputs (changed 3 0 (pos 70)) 0
        (tree 0 0 [] (tree 1 0 [] (tree 2 0 (pos 20 ∷ pos 10 ∷ [])
        none (tree 2 0 (pos 30 ∷ pos 15 ∷ []) none none)) none) none)
        ≡ tree 0 0 [] (tree 1 0 [] (tree 2 0 (pos 20 ∷ pos 10 ∷ [])
        none (tree 2 0 (pos 70 ∷ pos 15 ∷ []) none none)) none) none }
{}

/// A law: a column of two words, and the same with every input 0.
pub fn two_bare_words()
    ensures bare { bare (tree 0 0 [] (tree 1 0 [] (tree 2 0 (pos 20 ∷ pos 10 ∷ [])
        none (tree 2 0 (pos 30 ∷ pos 15 ∷ []) none none)) none) none)
        ≡ tree 0 0 [] (tree 1 0 [] (tree 2 0 (pos 0 ∷ pos 0 ∷ [])
        none (tree 2 0 (pos 0 ∷ pos 0 ∷ []) none none)) none) none }
{}
