//! One token of the canonical text, with what follows it.

ghost use Rattle.std.specs.Prelude.{◌≡◌, ◌++◌, string_bytes, OnOk};
ghost use Rattle.ftl_tokens.specs.scanner.Tokenized as said;
ghost use Rattle.ftl_grammar.specs.printing.GrammarTokens.{gap_after, spaced_bytes};

use ftl_tokens::{Kind, Name, write_fixed, write_name, write_number};
use std::alloc::AllocError;

fn gap_after(kind: Kind) -> &'static str
    ensures gap { result.now ≡ gap_after (said.fixed kind) }
{
    match kind {
        Kind::Semicolon | Kind::LeftBrace | Kind::RightBrace => "\n",
        _ => " ",
    }
}

/// A reserved word or a mark.
#[tactic(auto, unfolding(crate::specs::printing::GrammarTokens::spaced_bytes))]
pub fn fixed(out: &mut String, kind: Kind) -> Result<(), AllocError>
    ensures text { OnOk result (string_bytes out.new
        ≡ string_bytes out.old ++ spaced_bytes (said.fixed kind)) }
{
    write_fixed(out, kind, gap_after(kind))
}

#[tactic(auto, unfolding(crate::specs::printing::GrammarTokens::spaced_bytes))]
pub fn name(out: &mut String, name: &Name) -> Result<(), AllocError>
    ensures text { OnOk result (string_bytes out.new
        ≡ string_bytes out.old ++ spaced_bytes (said.name name.now)) }
{
    write_name(out, name, " ")
}

#[tactic(auto, unfolding(crate::specs::printing::GrammarTokens::spaced_bytes))]
pub fn number(out: &mut String, number: u32) -> Result<(), AllocError>
    ensures text { OnOk result (string_bytes out.new
        ≡ string_bytes out.old ++ spaced_bytes (said.number number)) }
{
    write_number(out, number as u64, " ")
}
