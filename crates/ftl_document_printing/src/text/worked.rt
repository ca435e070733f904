//! A law: canonical texts that were typed by hand.

ghost use Rattle.std.specs.Prelude.{◌≡◌, codes, negsuc};
ghost use Rattle.ftl_document.specs.syntax.Written.{list_field, no_fields, no_nodes, node_and};
ghost use Rattle.ftl_document.specs.syntax.Written.{node_field, number_field, written_node};
ghost use Rattle.ftl_document.specs.syntax.Worked.{worked_node};
ghost use Rattle.ftl_document_printing.specs.text.DocumentText.{document_text};

/// A law: the texts of three documents: without fields, with an empty list, and with nodes, a list
/// and a negative number.
pub fn canonical_texts_by_hand()
    ensures empty { document_text (written_node (codes "A") no_fields) ≡ codes "A { }\n" }
    ensures list { document_text (written_node (codes "A")
        (list_field (codes "kids") no_nodes no_fields)) ≡ codes "A { kids = [ ] }\n" }
    ensures nodes { document_text worked_node
        ≡ codes "A { b = B { c = [ C { } C { } ] } d = -3 }\n" }
{}
