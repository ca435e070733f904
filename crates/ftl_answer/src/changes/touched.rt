//! The line on touched instances.

ghost use Rattle.std.specs.Prelude.{◌≡◌, ◌++◌, OnOk};
ghost use Rattle.ftl_answer.specs.answers.Answers.{touched_line};

use itoa::Buffer;
use std::alloc::AllocError;

/// Adds the line that so many instances were touched.
pub fn write_touched(out: &mut Vec<u8>, count: u64) -> Result<(), AllocError>
    ensures line { OnOk result (out.new.items ≡ out.old.items ++ touched_line count) }
{
    out.extend_from_slice(b"touched=")?;
    out.extend_from_slice(Buffer::new().format(count).as_bytes())?;
    out.extend_from_slice(b"\n")
}
