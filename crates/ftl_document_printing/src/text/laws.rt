//! Laws of canonical texts.

ghost use Rattle.std.specs.Prelude.{◌≡◌, ◌≤◌, ℕ};
ghost use Rattle.ftl_document.specs.syntax.Braces.{braces};
ghost use Rattle.ftl_document.specs.syntax.Sizes.{levels_of, node_count};
ghost use Rattle.ftl_document.specs.syntax.Spelling.{SpellsNode};
ghost use Rattle.ftl_document.specs.syntax.Written.{WrittenNode};
ghost use Rattle.ftl_document_printing.specs.text.DocumentText.{CanBeWritten, IsTextOf};
ghost use Rattle.ftl_document_printing.specs.text.DocumentText.{document_text};
ghost use Rattle.ftl_tokens.specs.reading.Depth.{IsShallow, count_of};
ghost use Rattle.ftl_tokens.specs.reading.Reader.{Tokens};

/// A law: a scan of the canonical text finds tokens, and these spell the document, where each name
/// can be said and no number is above the greatest.
pub fn canonical_documents()
    ensures spells { (greatest : ℕ) (node : WrittenNode) → greatest ≤ 140737488355327
        → CanBeWritten greatest node → IsTextOf greatest (document_text node) node }
{}

/// A law: tokens that spell a document have no more braces open than it has nodes in one another,
/// and open one for each node.
pub fn shallow_documents()
    ensures shallow { (limit : ℕ) (tokens : Tokens) (node : WrittenNode)
        → SpellsNode tokens node → levels_of node ≤ limit → IsShallow braces limit tokens }
    ensures opened { (tokens : Tokens) (node : WrittenNode)
        → SpellsNode tokens node → count_of braces.opening tokens ≡ node_count node }
{}
