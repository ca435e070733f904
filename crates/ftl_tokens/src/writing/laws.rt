//! Laws of written texts.

ghost use Rattle.std.specs.Prelude.{◌≡◌, ◌≤◌, ℕ, List};
ghost use Rattle.ftl_tokens.specs.writing.Written.{Written, text_of, said_by, AreReadable, Says};
ghost use Rattle.ftl_tokens.specs.writing.Written.{AreSpaced};

/// A law: a scan of a written text finds the tokens that were written, where none is gone on by
/// what follows it; where each has white space behind it, none is.
pub fn law_of_writing()
    ensures scanned { (greatest : ℕ) → greatest ≤ 140737488355327 → (tokens : List Written)
        → AreReadable greatest tokens → Says greatest (text_of tokens) (said_by tokens) }
    ensures spaced { (greatest : ℕ) (tokens : List Written)
        → AreSpaced greatest tokens → AreReadable greatest tokens }
{}
