//! A law on the answers of the reader.

ghost use Rattle.std.specs.Prelude.{◌≡◌, ◌≢◌, List, Result, Err};
ghost use Rattle.ftl_tokens.specs.scanner.Tokenized.{WideTokenized};
ghost use Rattle.ftl_tree.specs.trees.CheckedTree.{CheckedTree};
ghost use Rattle.ftl_edits.specs.declared.meaning.fault.EditFault.{EditFault};
ghost use Rattle.ftl_edits.specs.declared.meaning.fault.EditFault.TheVariants.{OutOfMemory};
ghost use Rattle.ftl_edits.specs.declared.meaning.types.Edit.{Edit};
ghost use Rattle.ftl_edits.specs.reading.Read.{ReadsEdits};

/// A law: each text has one answer at a tree, want of memory aside: the edits that its tokens stand
/// for, or its one first fault.
pub fn one_edit_list()
    ensures some { (t : CheckedTree) (scanned : WideTokenized)
        → (answer : Result (List Edit) EditFault)
        × (answer ≢ Err OutOfMemory) × ReadsEdits t scanned answer }
    ensures any_two { (t : CheckedTree) (scanned : WideTokenized)
        (answer other : Result (List Edit) EditFault)
        → answer ≢ Err OutOfMemory → other ≢ Err OutOfMemory
        → ReadsEdits t scanned answer → ReadsEdits t scanned other → answer ≡ other }
{}
