//! Laws of what written edits stand for.

ghost use Rattle.std.specs.Prelude.{◌≡◌, ◌≢◌, ℕ, List, Err, Ok};
ghost use Rattle.std.specs.List.{All};
ghost use Rattle.ftl_tree.specs.trees.CheckedTree.{CheckedTree};
ghost use Rattle.ftl_edits.specs.declared.meaning.fault.EditFault.TheVariants.{OutOfMemory, Syntax};
ghost use Rattle.ftl_edits.specs.declared.meaning.types.Edit.{Edit};
ghost use Rattle.ftl_edits.specs.declared.syntax.written.WrittenEdit.{WrittenEdit};
ghost use Rattle.ftl_edits.specs.meaning.Meaning.{edits_of};
ghost use Rattle.ftl_edits.specs.meaning.Editable.{AreEditsOf, greatest_of};
ghost use Rattle.ftl_edits.specs.syntax.Read.{AreWithin};

/// A law: the fault of written edits is neither want of memory nor one of syntax.
pub fn faults_are_of_edits()
    ensures memory { (t : CheckedTree) (written : List WrittenEdit)
        → edits_of t written ≢ Err OutOfMemory }
    ensures syntax { (t : CheckedTree) (written : List WrittenEdit) (at : ℕ)
        → edits_of t written ≢ Err (Syntax at) }
{}

/// A law: written edits without a fault, whose values are within the width, are edits that the tree
/// can take.
pub fn edits_name_inputs()
    ensures editable { (t : CheckedTree) (written : List WrittenEdit) (edits : List Edit)
        → AreWithin (greatest_of t) written → edits_of t written ≡ Ok edits → AreEditsOf t edits }
{}
