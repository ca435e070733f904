//! In which phase each item of a work is filled, where the cells are cut into ranges that workers
//! fill beside each other: some items before the ranges, some in one range each, the others after.
//! `specs/work_phases/Phases.antt` says which phases a work can take.

mod phase;

pub use phase::{Phase, Phases};
