//! The texts of the grammars that come with the program.

ghost use Rattle.std.specs.Prelude.{◌≡◌};
ghost use Rattle.std.specs.Option.{option_copied};
ghost use Rattle.ftl_boxes.specs.Shipped.{shipped_text};

use crate::grammar::Grammar;

/// The text of the grammar of this name, if it is shipped.
pub fn shipped(name: &str) -> Option<&'static str>
    ensures text { option_copied result ≡ shipped_text name.now }
{
    shipped_by_bytes(name.as_bytes())
}

/// The same, by the bytes of the name.
pub fn shipped_by_bytes(name: &[u8]) -> Option<&'static str>
    ensures text { option_copied result ≡ shipped_text name.now }
{
    Some(Grammar::named(name)?.text())
}
