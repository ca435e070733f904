//! Laws of printed documents.

ghost use Rattle.ftl_document_printing.specs.round_trip.ReadBack.{PrintedAreReadBack};
ghost use Rattle.ftl_document_printing.specs.round_trip.ReadBack.{ReadAreReadBack};
ghost use Rattle.ftl_document_printing.specs.round_trip.ReadBack.{ReadArePrintable};
ghost use Rattle.ftl_document_printing.specs.round_trip.ReadBack.{ReadableAreSaid};

use crate::text::{canonical_documents, shallow_documents};
use ftl_document::{faultless_documents_are_trees, trees_are_written};

/// A law: what is read of a tree's canonical text is the tree.
pub fn printed_documents()
    ensures read_back { PrintedAreReadBack }
{
    canonical_documents();
    shallow_documents();
    trees_are_written();
    faultless_documents_are_trees();
}

/// A law: a tree that was read, by a grammar that was read, is read back from its canonical text.
/// It is within the limits of documents, and the names of its grammar can be said.
pub fn read_documents()
    ensures printable { ReadArePrintable }
    ensures said { ReadableAreSaid }
    ensures read_back { ReadAreReadBack }
{
    canonical_documents();
    shallow_documents();
    trees_are_written();
    faultless_documents_are_trees();
}
