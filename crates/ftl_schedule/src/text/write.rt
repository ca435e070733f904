//! The parts of a pass, one after another, at the end of a text.

ghost use Rattle.std.specs.Prelude.{◌≡◌, ◌++◌, string_bytes, OnOk};
ghost use Rattle.ftl_tokens.specs.writing.Written.{text_of};
ghost use Rattle.ftl_schedule.specs.syntax.Trees.{attribute_name, word_of};
ghost use Rattle.ftl_schedule.specs.text.ScheduleText.{attribute_written, close, open_pass};

use crate::syntax::PassKind;
use ftl_tokens::{Kind, Name, write_fixed, write_name};
use std::alloc::AllocError;

/// Writes the kind of a pass and `{`.
pub fn write_open(out: &mut String, kind: PassKind) -> Result<(), AllocError>
    ensures text { OnOk result (string_bytes out.new
        ≡ string_bytes out.old ++ text_of (open_pass kind)) }
{
    out.push_str(kind_word(kind))?;
    out.push_str(" ")?;
    write_fixed(out, Kind::LeftBrace, " ")
}

fn kind_word(kind: PassKind) -> &'static str
    ensures word { result.now ≡ word_of kind }
{
    match kind {
        PassKind::TopDown => "topdown",
        PassKind::BottomUp => "bottomup",
        PassKind::InOrder => "inorder",
    }
}

/// Writes an attribute by its owner and its name.
pub fn write_attribute(out: &mut String, owner: &Name, attr: &Name) -> Result<(), AllocError>
    ensures text { OnOk result (string_bytes out.new
        ≡ string_bytes out.old ++ text_of (attribute_written (attribute_name owner.now attr.now))) }
{
    write_name(out, owner, "")?;
    write_fixed(out, Kind::Dot, "")?;
    write_name(out, attr, " ")
}

/// Writes `}` and the gap behind it.
pub fn write_close(out: &mut String, gap: &str) -> Result<(), AllocError>
    ensures text { OnOk result (string_bytes out.new
        ≡ string_bytes out.old ++ text_of (close gap.now)) }
{
    write_fixed(out, Kind::RightBrace, gap)
}
