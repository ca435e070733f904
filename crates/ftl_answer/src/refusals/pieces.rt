//! Pieces of lines.

ghost use Rattle.std.specs.Prelude.{◌≡◌, ◌++◌, OnOk};
ghost use Rattle.std.specs.Fmt.{decimal};

use itoa::Buffer;
use std::alloc::AllocError;

/// Adds a text.
pub(crate) fn text(out: &mut Vec<u8>, text: &str) -> Result<(), AllocError>
    ensures added { OnOk result (out.new.items ≡ out.old.items ++ text.now) }
{
    out.extend_from_slice(text.as_bytes())
}

/// Adds a number in decimal.
pub(crate) fn number(out: &mut Vec<u8>, number: u32) -> Result<(), AllocError>
    ensures added { OnOk result (out.new.items ≡ out.old.items ++ decimal number) }
{
    out.extend_from_slice(Buffer::new().format(number).as_bytes())
}

/// Adds a text and a name.
pub(crate) fn named(out: &mut Vec<u8>, before: &str, name: &str) -> Result<(), AllocError>
    ensures added { OnOk result (out.new.items ≡ out.old.items ++ (before.now ++ name.now)) }
{
    text(out, before)?;
    text(out, name)
}

/// Adds a text and a number.
pub(crate) fn numbered(out: &mut Vec<u8>, before: &str, count: u32) -> Result<(), AllocError>
    ensures added { OnOk result (out.new.items ≡ out.old.items ++ (before.now ++ decimal count)) }
{
    text(out, before)?;
    number(out, count)
}

/// Adds a text, a name and another text.
pub(crate) fn around(
    out: &mut Vec<u8>,
    before: &str,
    name: &str,
    after: &str,
) -> Result<(), AllocError>
    ensures added { OnOk result (out.new.items
        ≡ out.old.items ++ (before.now ++ (name.now ++ after.now))) }
{
    text(out, before)?;
    text(out, name)?;
    text(out, after)
}

/// Adds a text, a name, another text and a number.
pub(crate) fn named_number(
    out: &mut Vec<u8>,
    before: &str,
    name: &str,
    between: &str,
    count: u32,
) -> Result<(), AllocError>
    ensures added { OnOk result (out.new.items ≡ out.old.items
        ++ (before.now ++ (name.now ++ (between.now ++ decimal count)))) }
{
    around(out, before, name, between)?;
    number(out, count)
}

/// Adds a text, a number and another text.
pub(crate) fn around_number(
    out: &mut Vec<u8>,
    before: &str,
    count: u32,
    after: &str,
) -> Result<(), AllocError>
    ensures added { OnOk result (out.new.items
        ≡ out.old.items ++ (before.now ++ (decimal count ++ after.now))) }
{
    numbered(out, before, count)?;
    text(out, after)
}

/// Adds a text, a number and two other texts.
pub(crate) fn number_then(
    out: &mut Vec<u8>,
    before: &str,
    count: u32,
    what: &str,
    name: &str,
) -> Result<(), AllocError>
    ensures added { OnOk result (out.new.items ≡ out.old.items
        ++ (before.now ++ (decimal count ++ (what.now ++ name.now)))) }
{
    numbered(out, before, count)?;
    text(out, what)?;
    text(out, name)
}

/// Adds two texts, each with a number.
pub(crate) fn two_numbers(
    out: &mut Vec<u8>,
    before: &str,
    first: u32,
    between: &str,
    second: u32,
) -> Result<(), AllocError>
    ensures added { OnOk result (out.new.items ≡ out.old.items
        ++ (before.now ++ (decimal first ++ (between.now ++ decimal second)))) }
{
    numbered(out, before, first)?;
    numbered(out, between, second)
}

/// Adds a text and a large number.
pub(crate) fn numbered_large(out: &mut Vec<u8>, before: &str, count: u64) -> Result<(), AllocError>
    ensures added { OnOk result (out.new.items ≡ out.old.items ++ (before.now ++ decimal count)) }
{
    text(out, before)?;
    out.extend_from_slice(Buffer::new().format(count).as_bytes())
}

/// Adds two texts.
pub(crate) fn two(out: &mut Vec<u8>, first: &str, second: &str) -> Result<(), AllocError>
    ensures added { OnOk result (out.new.items ≡ out.old.items ++ (first.now ++ second.now)) }
{
    text(out, first)?;
    text(out, second)
}

/// Adds a text, a number, and two names, each after a text.
pub(crate) fn number_and_names(
    out: &mut Vec<u8>,
    before: &str,
    count: u32,
    names: (&str, &str, &str, &str),
) -> Result<(), AllocError>
    ensures added { OnOk result (out.new.items ≡ out.old.items ++ (before.now ++ (decimal count
        ++ (names.entry.0.now ++ (names.entry.1.now
        ++ (names.entry.2.now ++ names.entry.3.now)))))) }
{
    number_then(out, before, count, names.0, names.1)?;
    two(out, names.2, names.3)
}

/// Adds a text and a number, a second text and a name, and what is said of it.
pub(crate) fn field_then(
    out: &mut Vec<u8>,
    before: (&str, &str),
    count: u32,
    name: &str,
    what: &str,
) -> Result<(), AllocError>
    ensures added { OnOk result (out.new.items ≡ out.old.items ++ (before.entry.0.now
        ++ (decimal count ++ (before.entry.1.now ++ (name.now ++ what.now))))) }
{
    numbered(out, before.0, count)?;
    around(out, before.1, name, what)
}
