//! One token, with the spaces around it.

ghost use Rattle.std.specs.Prelude.{◌≡◌, ◌++◌, string_bytes, OnOk};
ghost use Rattle.ftl_tokens.specs.scanner.Tokenized as said;
ghost use Rattle.maugzeris.specs.rules.Spoken.{space_after, space_before, spoken};

use ftl_tokens::writing::fixed_text;
use ftl_tokens::{Kind, Name};
use itoa::Buffer;
use std::alloc::AllocError;

/// A reserved word or a mark.
#[tactic(auto, unfolding(crate::specs::rules::Spoken::spoken))]
pub(crate) fn fixed(out: &mut String, kind: Kind) -> Result<(), AllocError>
    ensures text { OnOk result (string_bytes out.new
        ≡ string_bytes out.old ++ spoken (said.fixed kind)) }
{
    out.push_str(space_before(kind))?;
    out.push_str(fixed_text(kind))?;
    out.push_str(space_after(kind))
}

#[tactic(auto, unfolding(crate::specs::rules::Spoken::spoken))]
pub(crate) fn name(out: &mut String, name: &Name) -> Result<(), AllocError>
    ensures text { OnOk result (string_bytes out.new
        ≡ string_bytes out.old ++ spoken (said.name name.now)) }
{
    out.push_str(name.text())
}

#[tactic(auto, unfolding(crate::specs::rules::Spoken::spoken))]
pub(crate) fn number(out: &mut String, number: u32) -> Result<(), AllocError>
    ensures text { OnOk result (string_bytes out.new
        ≡ string_bytes out.old ++ spoken (said.number number)) }
{
    out.push_str(Buffer::new().format(number))
}

fn space_before(kind: Kind) -> &'static str
    ensures space { result.now ≡ space_before kind }
{
    match kind {
        Kind::Assign
        | Kind::Then
        | Kind::Else
        | Kind::From
        | Kind::With
        | Kind::Or
        | Kind::Plus
        | Kind::Minus
        | Kind::Star
        | Kind::Slash
        | Kind::Less
        | Kind::LessEq
        | Kind::More
        | Kind::MoreEq
        | Kind::EqualEqual
        | Kind::Unequal
        | Kind::AndAnd
        | Kind::OrOr => " ",
        _ => "",
    }
}

fn space_after(kind: Kind) -> &'static str
    ensures space { result.now ≡ space_after kind }
{
    match kind {
        Kind::If | Kind::First | Kind::Fold | Kind::Last | Kind::Comma => " ",
        _ => space_before(kind),
    }
}
