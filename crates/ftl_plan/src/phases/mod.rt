//! In which phase each item of a stage is filled, where the cells of its tree are cut into ranges
//! of one size. Goes in: the items of a stage, and how many ranges there are. Comes out: a phase
//! for each item, which the stage can take as `ftl_cells::work_phases` says, or that ranges don't
//! pay. `specs/phases/StagePhases.antt` says which phase each item takes.

mod item;
mod stage;

pub use stage::stage_phases;
