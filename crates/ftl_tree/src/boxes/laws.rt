//! Laws of words.

ghost use Rattle.ftl_tree.specs.boxes.WordValues.{WordsAreUndone};

/// A law: the value that a value's word stands for is that value.
pub fn words_are_undone()
    ensures undone { WordsAreUndone }
{}
