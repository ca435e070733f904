//! Trees, from the bytes of plain texts.

ghost use Rattle.std.specs.Prelude.{◌≡◌, ◌≤◌, length, IfOk, IfSome};
ghost use Rattle.ftl_base.specs.Widths.{greatest_of_width};
ghost use Rattle.ftl_model.specs.layout.Limits.{most_page_bytes};
ghost use Rattle.ftl_document.specs.reading.OfText.{AreNodesOfText, IsTreeOfText};

use crate::faults::DocFault;
use crate::nodes::{DocumentNodes, document_nodes};
use crate::pass::passed_nodes;
use crate::plain::rows_of_text;
use ftl_checked::Checked;
use ftl_tree::Tree;
use std::alloc::{AllocError, Global};

/// The tree of a document's text, whose numbers are at most `greatest`. None where something in the
/// text is not plain or the document has a fault, which the tokens of the text then tell.
pub fn read_plain_document<'a>(
    alloc: Global,
    checked: &'a Checked,
    text: &str,
    greatest: u64,
) -> Result<Option<Tree<'a>>, AllocError>
    requires short { length text.now ≤ most_page_bytes }
    requires width { greatest ≡ greatest_of_width checked.now.width }
    ensures tree { IfOk result (λ found. IfSome found (IsTreeOfText checked.now text.now)) }
{
    let Some(DocumentNodes { rows, inputs }) = nodes_of_text(alloc, checked, text, greatest)? else {
        return Ok(None);
    };
    let tree = Tree::from_nodes(alloc, checked, rows, inputs)?;
    Ok(Some(tree))
}

/// The nodes of the tree of a document's text, whose numbers are at most `greatest`, by one pass
/// where that takes the text. None where something in the text is not plain or the document has a
/// fault, which the tokens of the text then tell. A caller who gives the text back before the tree
/// is made needs less memory at once.
pub fn nodes_of_text(
    alloc: Global,
    checked: &Checked,
    text: &str,
    greatest: u64,
) -> Result<Option<DocumentNodes>, AllocError>
    requires short { length text.now ≤ most_page_bytes }
    requires width { greatest ≡ greatest_of_width checked.now.width }
    ensures nodes { IfOk result (λ found. IfSome found (AreNodesOfText checked.now text.now)) }
{
    match passed_nodes(alloc, checked, text, greatest)? {
        Some(nodes) => Ok(Some(nodes)),
        None => plain_nodes(alloc, checked, text, greatest),
    }
}

/// The nodes of the tree. What is written is given back before the tree is made.
fn plain_nodes(
    alloc: Global,
    checked: &Checked,
    text: &str,
    greatest: u64,
) -> Result<Option<DocumentNodes>, AllocError>
    requires short { length text.now ≤ most_page_bytes }
    requires width { greatest ≡ greatest_of_width checked.now.width }
    ensures nodes { IfOk result (λ found. IfSome found (AreNodesOfText checked.now text.now)) }
{
    let Some(document) = rows_of_text(alloc, text, greatest)? else {
        return Ok(None);
    };
    match document_nodes(alloc, checked, &document) {
        Ok(nodes) => Ok(Some(nodes)),
        Err(DocFault::OutOfMemory) => Err(AllocError),
        Err(_) => Ok(None),
    }
}
