//! How tokens are written, one after another, at the end of a text.

ghost use Rattle.std.specs.Prelude.{◌≡◌, ◌++◌, option_copied, string_bytes, OnOk};
ghost use Rattle.ftl_tokens.specs.scanner.Tokenized as said;
ghost use Rattle.ftl_tokens.specs.writing.Written.{fixed_text, mark_text, word_text};
ghost use Rattle.ftl_tokens.specs.writing.Written.{written, written_bytes};

use crate::scanner::{Kind, Name};
use itoa::Buffer;
use std::alloc::AllocError;

/// How the reserved word or the mark is written. Names and numbers have no text of their own.
pub fn fixed_text(kind: Kind) -> &'static str
    ensures text { result.now ≡ fixed_text kind }
{
    word_text(kind).unwrap_or(mark_text(kind))
}

fn word_text(kind: Kind) -> Option<&'static str>
    ensures text { option_copied result ≡ word_text kind }
{
    let text = match kind {
        Kind::Root => "root",
        Kind::Interface => "interface",
        Kind::Class => "class",
        Kind::Inh => "inh",
        Kind::Syn => "syn",
        Kind::Input => "input",
        Kind::Local => "local",
        Kind::Show => "show",
        Kind::SelfWord => "self",
        Kind::This => "this",
        Kind::Prev => "prev",
        Kind::Last => "last",
        Kind::First => "first",
        Kind::Then => "then",
        Kind::Fold => "fold",
        Kind::From => "from",
        Kind::With => "with",
        Kind::Acc => "acc",
        Kind::If => "if",
        Kind::Else => "else",
        Kind::Or => "or",
        Kind::Min => "min",
        Kind::Max => "max",
        _ => return None,
    };
    Some(text)
}

fn mark_text(kind: Kind) -> &'static str
    ensures text { result.now ≡ mark_text kind }
{
    match kind {
        Kind::LeftBrace => "{",
        Kind::RightBrace => "}",
        Kind::LeftParen => "(",
        Kind::RightParen => ")",
        Kind::LeftBracket => "[",
        Kind::RightBracket => "]",
        Kind::Semicolon => ";",
        Kind::Colon => ":",
        Kind::Comma => ",",
        Kind::Dot => ".",
        Kind::Assign => ":=",
        Kind::Equals => "=",
        Kind::Plus => "+",
        Kind::Minus => "-",
        Kind::Star => "*",
        Kind::Slash => "/",
        Kind::Less => "<",
        Kind::LessEq => "<=",
        Kind::More => ">",
        Kind::MoreEq => ">=",
        Kind::EqualEqual => "==",
        Kind::Unequal => "!=",
        Kind::AndAnd => "&&",
        Kind::OrOr => "||",
        Kind::Bang => "!",
        _ => "",
    }
}

/// Writes a reserved word or a mark, and the gap behind it.
pub fn write_fixed(out: &mut String, kind: Kind, gap: &str) -> Result<(), AllocError>
    ensures text { OnOk result (string_bytes out.new
        ≡ string_bytes out.old ++ written_bytes (written (said.fixed kind) gap.now)) }
{
    out.push_str(fixed_text(kind))?;
    out.push_str(gap)
}

/// Writes a name, and the gap behind it.
pub fn write_name(out: &mut String, name: &Name, gap: &str) -> Result<(), AllocError>
    ensures text { OnOk result (string_bytes out.new
        ≡ string_bytes out.old ++ written_bytes (written (said.name name.now) gap.now)) }
{
    out.push_str(name.text())?;
    out.push_str(gap)
}

/// Writes a number in decimal, and the gap behind it.
pub fn write_number(out: &mut String, number: u64, gap: &str) -> Result<(), AllocError>
    ensures text { OnOk result (string_bytes out.new
        ≡ string_bytes out.old ++ written_bytes (written (said.number number) gap.now)) }
{
    out.push_str(Buffer::new().format(number))?;
    out.push_str(gap)
}
