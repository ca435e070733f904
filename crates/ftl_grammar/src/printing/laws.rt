//! Laws of canonical texts.

ghost use Rattle.std.specs.Prelude.{◌≡◌, ℕ, List};
ghost use Rattle.std.specs.Str.{IsUtf8};
ghost use Rattle.ftl_tokens.specs.reading.Reader.{Tokens};
ghost use Rattle.ftl_grammar.specs.declared.syntax.expression.Expr.{Expr};
ghost use Rattle.ftl_grammar.specs.declared.syntax.rules.Grammar.{Grammar};
ghost use Rattle.ftl_grammar.specs.syntax.Spelling.{SpellsExpr};
ghost use Rattle.ftl_grammar.specs.printing.ExpressionTokens.{expr_tokens};
ghost use Rattle.ftl_grammar.specs.printing.GrammarTokens.{grammar_text};
ghost use Rattle.ftl_grammar.specs.printing.TextOf.{IsTextOf};
ghost use Rattle.ftl_grammar.specs.reading.Readable.{CanBeRead};

/// A law: the canonical text of a grammar that some text spells spells it too, with no more
/// brackets open than there may be; so does that of a grammar that can be read. The tokens of an
/// expression are the only ones that spell it.
pub fn canonical_texts()
    ensures grammar { (text : List ℕ) (g : Grammar) → IsUtf8 text
        → IsTextOf text g → IsTextOf (grammar_text g) g }
    ensures readable { (g : Grammar) → CanBeRead g → IsTextOf (grammar_text g) g }
    ensures expression { (tokens : Tokens) (x : Expr) → SpellsExpr tokens x
        → tokens ≡ expr_tokens x }
{}
