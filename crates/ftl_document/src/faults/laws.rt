//! Laws on the first fault of documents, and on their trees.

ghost use Rattle.ftl_document.specs.faults.DocumentLaws.{FaultlessAreTrees, FaultsAreOfNodes};
ghost use Rattle.ftl_document.specs.faults.DocumentLaws.{CountsInstances};
ghost use Rattle.ftl_document.specs.faults.DocumentLaws.{OfTrees, MeansItsTree, IsWrittenRight};
ghost use Rattle.ftl_document.specs.faults.DocumentLaws.{IsWrittenWithin};

/// A law: a document whose nodes have no fault is a tree of the grammar. The attributes that are
/// counted of a document are the instances of its tree.
pub fn faultless_documents_are_trees()
    ensures tree { FaultlessAreTrees }
    ensures instances { CountsInstances }
{}

/// A law: the first fault is one of the nodes, or of their number of attributes.
pub fn faults_are_of_nodes()
    ensures kind { FaultsAreOfNodes }
{}

/// A law: each tree of the grammar is written by a document, in the canonical order, that means the
/// tree. No node of the document has a fault, and its numbers are within the width.
pub fn trees_are_written()
    ensures tree { OfTrees MeansItsTree }
    ensures right { OfTrees IsWrittenRight }
    ensures within { OfTrees IsWrittenWithin }
{}
