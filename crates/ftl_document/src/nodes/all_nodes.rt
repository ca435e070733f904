//! The nodes of a document.

ghost use Rattle.std.specs.Prelude.{◌≡◌, ℕ, IfOk};
ghost use Rattle.ftl_document.specs.syntax.Written.{WrittenNode};
ghost use Rattle.ftl_document.specs.faults.DocumentTree.{tree_of};
ghost use Rattle.ftl_document.specs.faults.FirstFault.{first_fault};
ghost use Rattle.ftl_document.specs.faults.Within.{IsWithin};
ghost use Rattle.ftl_document.specs.nodes.Found.{AreRowsOf, FindsFault, IsWritten};
ghost use Rattle.ftl_meaning.specs.grammars.GrammarOf.{grammar_of};
ghost use Rattle.ftl_tree.specs.rows.Rows.{AreNodesOf};

use crate::faults::DocFault;
use crate::nodes::class_tables::class_tables;
use crate::nodes::progress::Progress;
use crate::nodes::walk::Walk;
use crate::syntax::WrittenDocument;
use ftl_checked::Checked;
use ftl_tree::NodeRow;
use std::alloc::Global;

/// How many attributes all nodes may have.
pub(crate) const MOST_INSTANCES: u64 = 33_554_432;

/// The rows of the tree that a document means, in preorder, and the inputs of its nodes, node by
/// node in the order of their classes.
#[derive(Drop)]
pub struct DocumentNodes {
    pub rows: Vec<NodeRow>,
    pub inputs: Vec<i64>,
}

/// The nodes of a document by its grammar, or the first fault: node by node in preorder, and then
/// the number of all attributes.
pub fn document_nodes(
    alloc: Global,
    checked: &Checked,
    document: &WrittenDocument<'_>,
) -> Result<DocumentNodes, DocFault>
    requires written { IsWritten document.now }
    ensures exact { (node : WrittenNode) → AreRowsOf node document.now
        → FindsFault (first_fault checked.now.grammar node) result }
    ensures nodes { (node : WrittenNode) (greatest : ℕ) → AreRowsOf node document.now
        → IsWithin greatest node
        → IfOk result (λ nodes. AreNodesOf (grammar_of greatest checked.now.grammar)
        (tree_of checked.now.grammar node) nodes.rows.items nodes.inputs.items) }
{
    let tables = class_tables(alloc, checked)?;
    let walk = Walk {
        checked,
        tables: tables.as_slice(),
        rows: document.rows(),
    };
    let progress = walk.all(alloc, document.class())?;
    if progress.count > MOST_INSTANCES {
        return Err(DocFault::TooManyInstances {
            count: progress.count,
        });
    }
    let Progress { rows, inputs, .. } = progress;
    Ok(DocumentNodes { rows, inputs })
}
