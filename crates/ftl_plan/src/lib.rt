//! Plans of a layout. Goes in: a checked grammar, an accepted schedule, the code of the rules, a
//! tree, and how many nodes an item has. Comes out: the stages of the tree as lawful work whose
//! solution solves every equation of the tree, with the first words of each.
//!
//! - `cells`: `cell_kind`: the kind of a cell in a stage
//! - `laws`: the stages of a plan are lawful work, and which words fit each
//! - `phases`: `stage_phases`: in which phase each item of a stage is filled
//! - `plans`: `Plan`, `StageWork`, `solve_alone`
#![tactic(auto)]

pub mod cells;
pub mod laws;
pub mod phases;
pub mod plans;

pub use plans::{ItemPhases, KindPhases, Plan, PlanFault, first_words, solve_alone};
