//! What is found by name.

use ftl_checked::Checked;
use std::alloc::AllocError;
use std::fmt::Write;

/// The number of the root's interface, and what stands for each of the names, a line each.
pub(crate) fn write_all_found(
    out: &mut String,
    checked: &Checked,
    names: &str,
) -> Result<(), AllocError> {
    write!(out, "root is {}\n", checked.root())?;
    for name in names.lines() {
        write_found(out, name, number(checked, name))?;
    }
    Ok(())
}

/// The number of a class, or of the attribute of an owner.
fn number(checked: &Checked, name: &str) -> Option<u32> {
    match name.split_once(' ') {
        Some((owner, attr)) => checked.find_attribute(owner, attr),
        None => checked.find_class(name),
    }
}

fn write_found(out: &mut String, name: &str, number: Option<u32>) -> Result<(), AllocError> {
    match number {
        Some(number) => write!(out, "{name} is {number}\n"),
        None => write!(out, "{name} is none\n"),
    }
}
