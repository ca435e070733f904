//! Worked rows of the definitions.

ghost use Rattle.std.specs.Prelude.{◌≡◌};
ghost use Rattle.ftl_document.specs.syntax.Worked.{worked_tokens, worked_node, worked_rows};
ghost use Rattle.ftl_document.specs.syntax.Spelling.{SpellsNode};
ghost use Rattle.ftl_document.specs.syntax.Rows.{rows_of_fields};
ghost use Rattle.ftl_document.specs.syntax.Sizes.{node_count, levels_of};

/// A law: the worked document is spelled by its tokens, and has its rows and sizes.
pub fn worked_document()
    ensures spelled { SpellsNode worked_tokens worked_node }
    ensures rows { rows_of_fields worked_node.fields ≡ worked_rows }
    ensures nodes { node_count worked_node ≡ 4 }
    ensures levels { levels_of worked_node ≡ 3 }
{}
