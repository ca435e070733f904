//! Where an attribute stands in a schedule.

use crate::stages::PassKind;

/// Where an attribute stands in a schedule: counted from 0.
#[derive(Clone, Copy, Debug, PartialEq, Eq)]
pub struct SchedulePlace {
    /// The stage.
    pub stage: usize,
    /// The pass in that stage.
    pub pass: usize,
    /// The kind of that pass.
    pub kind: PassKind,
    /// The place in the list of that pass.
    pub index: usize,
}
