//! Places of steps.

use ftl_visit::{StepPlace, step_place};
use std::alloc::AllocError;
use std::fmt::Write;

/// The places of steps of three operations, of two steps, none and three, and the last of one.
pub(crate) fn write_places(out: &mut String) -> Result<(), AllocError> {
    write_place(out, step_place(&[2, 0, 3], 1))?;
    write_place(out, step_place(&[2, 0, 3], 2))?;
    write_place(out, step_place(&[2, 0, 3], 4))?;
    write_place(out, step_place(&[4294967295], 4294967294))
}

fn write_place(out: &mut String, place: StepPlace) -> Result<(), AllocError> {
    writeln!(out, "operation {} kid {}", place.op, place.kid)
}
