//! Trees, from the tokens of their documents.

ghost use Rattle.std.specs.Prelude.{◌≡◌};
ghost use Rattle.ftl_base.specs.Widths.{greatest_of_width};
ghost use Rattle.ftl_document.specs.reading.ReadNodes.{ReadsNodes, as_document_fault};
ghost use Rattle.ftl_document.specs.reading.ReadTree.{ReadsTree};

use crate::faults::DocFault;
use crate::nodes::{DocumentNodes, document_nodes};
use crate::syntax::{WrittenDocumentFault, read_written_document};
use ftl_checked::Checked;
use ftl_tokens::WideScanned;
use ftl_tree::Tree;
use std::alloc::Global;

/// The tree of a document whose text was scanned in the grammar's width.
pub fn read_document<'a>(
    alloc: Global,
    checked: &'a Checked,
    scanned: &WideScanned,
) -> Result<Tree<'a>, DocFault>
    requires width { scanned.now.greatest ≡ greatest_of_width checked.now.width }
    ensures answer { ReadsTree checked.now scanned.now result }
{
    let DocumentNodes { rows, inputs } = read_nodes(alloc, checked, scanned)?;
    let tree = Tree::from_nodes(alloc, checked, rows, inputs)?;
    Ok(tree)
}

/// The nodes of the tree. What is written is given back before the tree is made.
fn read_nodes(
    alloc: Global,
    checked: &Checked,
    scanned: &WideScanned,
) -> Result<DocumentNodes, DocFault>
    requires width { scanned.now.greatest ≡ greatest_of_width checked.now.width }
    ensures answer { ReadsNodes checked.now scanned.now result }
{
    match read_written_document(alloc, scanned) {
        Ok(document) => document_nodes(alloc, checked, &document),
        Err(fault) => Err(as_document_fault(fault)),
    }
}

/// A fault of the text as one of the document.
fn as_document_fault(fault: WrittenDocumentFault) -> DocFault
    ensures fault { result ≡ as_document_fault fault }
{
    match fault {
        WrittenDocumentFault::TooDeep { at } => DocFault::TooDeep { at },
        WrittenDocumentFault::TooManyNodes { count } => DocFault::TooManyNodes { count },
        WrittenDocumentFault::Syntax { at } => DocFault::Syntax { at },
        WrittenDocumentFault::OutOfMemory => DocFault::OutOfMemory,
    }
}
