//! Texts that stand several times.

use std::alloc::AllocError;

/// The text behind a number and a space, as often as the number says, each time with `behind`.
pub(crate) fn push_repeated(
    out: &mut String,
    counted: &str,
    behind: &str,
) -> Result<(), AllocError> {
    let (times, text) = counted.split_once(' ').unwrap_or(("0", counted));
    for _ in 0..times.parse::<u32>().unwrap_or(0) {
        out.push_str(text)?;
        out.push_str(behind)?;
    }
    Ok(())
}
