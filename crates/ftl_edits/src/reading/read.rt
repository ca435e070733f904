//! Edits of a tree, from their tokens.

ghost use Rattle.std.specs.Prelude.{◌≡◌, IfOk};
ghost use Rattle.ftl_base.specs.Widths.{greatest_of_width};
ghost use Rattle.ftl_edits.specs.meaning.Editable.{AreEditsOf};
ghost use Rattle.ftl_edits.specs.reading.Read.{ReadsEdits};

use crate::meaning::{EditFault, EditList, edits_name_inputs, edits_of};
use crate::syntax::{WrittenEditsFault, read_written_edits};
use ftl_checked::Checked;
use ftl_tokens::WideScanned;
use ftl_tree::Tree;
use std::alloc::Global;

/// The edits that the tokens of a text spell, whose numbers are of the grammar's width, each by the
/// numbers of its node and its input, or the first fault.
pub fn read_edits(
    alloc: Global,
    checked: &Checked,
    tree: &Tree<'_>,
    scanned: &WideScanned,
) -> Result<EditList, EditFault>
    requires tree { tree.now.checked ≡ checked.now }
    requires width { scanned.now.greatest ≡ greatest_of_width checked.now.width }
    ensures answer { ReadsEdits tree.now scanned.now result }
    // what setting inputs asks for
    ensures editable { IfOk result (AreEditsOf tree.now) }
{
    edits_name_inputs();
    match read_written_edits(alloc, scanned) {
        Ok(written) => edits_of(alloc, checked, tree, written.as_slice()),
        Err(WrittenEditsFault::Syntax { at }) => Err(EditFault::Syntax { at }),
        Err(WrittenEditsFault::OutOfMemory) => Err(EditFault::OutOfMemory),
    }
}
