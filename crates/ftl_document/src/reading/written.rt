//! Trees, from documents that are written.

ghost use Rattle.std.specs.Prelude.{◌≡◌, IfOk};
ghost use Rattle.std.specs.List.{All};
ghost use Rattle.ftl_base.specs.Widths.{greatest_of_width};
ghost use Rattle.ftl_document.specs.syntax.Sizes.{RowIsWithin};
ghost use Rattle.ftl_document.specs.syntax.Written.{WrittenNode};
ghost use Rattle.ftl_document.specs.faults.FirstFault.{first_fault};
ghost use Rattle.ftl_document.specs.nodes.Found.{AreRowsOf, FindsFault, IsWritten};
ghost use Rattle.ftl_document.specs.reading.ReadTree.{checked_tree};

use crate::faults::DocFault;
use crate::nodes::{DocumentNodes, document_nodes};
use crate::syntax::WrittenDocument;
use ftl_checked::Checked;
use ftl_tree::Tree;
use std::alloc::Global;

/// The tree that a written document means, or the first fault of its nodes. No text plays a part.
pub fn tree_of_written<'a>(
    alloc: Global,
    checked: &'a Checked,
    document: &WrittenDocument<'_>,
) -> Result<Tree<'a>, DocFault>
    requires written { IsWritten document.now }
    requires within { All (RowIsWithin (greatest_of_width checked.now.width)) document.now.rows }
    ensures exact { (node : WrittenNode) → AreRowsOf node document.now
        → FindsFault (first_fault checked.now.grammar node) result }
    ensures tree { (node : WrittenNode) → AreRowsOf node document.now
        → IfOk result (λ t. t ≡ checked_tree checked.now node) }
{
    let DocumentNodes { rows, inputs } = document_nodes(alloc, checked, document)?;
    let tree = Tree::from_nodes(alloc, checked, rows, inputs)?;
    Ok(tree)
}
