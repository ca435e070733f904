//! The parts of a document, one after another, at the end of a text.

ghost use Rattle.std.specs.Prelude.{◌≡◌, ◌++◌, [], ◌∷◌, string_bytes, OnOk};
ghost use Rattle.ftl_document_printing.specs.text.DocumentText.{field_opened, mark_written};
ghost use Rattle.ftl_document_printing.specs.text.DocumentText.{node_opened};
ghost use Rattle.ftl_document_printing.specs.text.DocumentText.{number_written};
ghost use Rattle.ftl_tokens.specs.writing.Written.{text_of};

use ftl_tokens::{Kind, Name, write_fixed, write_name, write_number};
use std::alloc::AllocError;

/// Writes the name of a field and `=`.
pub fn write_field(out: &mut String, name: &Name) -> Result<(), AllocError>
    ensures text { OnOk result (string_bytes out.new
        ≡ string_bytes out.old ++ text_of (field_opened name.now)) }
{
    write_name(out, name, " ")?;
    write_fixed(out, Kind::Equals, " ")
}

/// Writes a class and `{`.
pub fn write_open(out: &mut String, class: &Name) -> Result<(), AllocError>
    ensures text { OnOk result (string_bytes out.new
        ≡ string_bytes out.old ++ text_of (node_opened class.now)) }
{
    write_name(out, class, " ")?;
    write_fixed(out, Kind::LeftBrace, " ")
}

/// Writes a mark and a space.
pub fn write_mark(out: &mut String, mark: Kind) -> Result<(), AllocError>
    ensures text { OnOk result (string_bytes out.new
        ≡ string_bytes out.old ++ text_of (mark_written mark ∷ [])) }
{
    write_fixed(out, mark, " ")
}

/// Writes a number with its sign.
pub fn write_integer(out: &mut String, number: i64) -> Result<(), AllocError>
    ensures text { OnOk result (string_bytes out.new
        ≡ string_bytes out.old ++ text_of (number_written number)) }
{
    if number < 0 {
        write_fixed(out, Kind::Minus, "")?;
    }
    write_number(out, number.unsigned_abs(), " ")
}
