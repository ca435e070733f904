//! Laws that hold the definitions against worked texts.

ghost use Rattle.ftl_tokens.specs.scanner.Tokenized.{symbols_of};
ghost use Rattle.std.specs.Prelude.{[]};
ghost use Rattle.ftl_edits.specs.syntax.Read.{IsNoEdits};
ghost use Rattle.ftl_edits.specs.syntax.Spelling.{SpellsEdits};
ghost use Rattle.ftl_edits.specs.syntax.Worked.{one_edit, edits_of_one, two_edits, edits_of_two};
ghost use Rattle.ftl_edits.specs.syntax.Worked.{nothing, sign_twice, without_end, named_node};
ghost use Rattle.ftl_edits.specs.syntax.Worked.{mark_twice};

/// A law: three texts spell the edits that were typed out for them.
pub fn worked_edits()
    ensures one { SpellsEdits (symbols_of one_edit) edits_of_one }
    ensures two { SpellsEdits (symbols_of two_edits) edits_of_two }
    ensures none { SpellsEdits (symbols_of nothing) [] }
{}

/// A law: where four texts that spell no edits go wrong: at a second sign, at the end of the last
/// token, at a name in place of a number, and at a second mark.
pub fn worked_places()
    ensures sign { IsNoEdits sign_twice 5 }
    ensures end { IsNoEdits without_end 7 }
    ensures name { IsNoEdits named_node 1 }
    ensures mark { IsNoEdits mark_twice 6 }
{}
