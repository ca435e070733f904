//! What opens a nest, at the end of a text.

ghost use Rattle.std.specs.Prelude.{◌≡◌, ◌++◌, string_bytes, OnOk};
ghost use Rattle.ftl_tokens.specs.writing.Written.{text_of};
ghost use Rattle.ftl_nest_text.specs.text.NestText.{open_nest};

use ftl_tokens::{Kind, Name, write_fixed, write_name};
use std::alloc::AllocError;

/// Writes the word `nest`, the name of the host and `{`.
pub fn write_nest_open(out: &mut String, host: &Name) -> Result<(), AllocError>
    ensures text { OnOk result (string_bytes out.new
        ≡ string_bytes out.old ++ text_of (open_nest host.now)) }
{
    out.push_str("nest ")?;
    write_name(out, host, " ")?;
    write_fixed(out, Kind::LeftBrace, " ")
}
