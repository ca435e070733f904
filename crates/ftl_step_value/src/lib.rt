//! What a step reads, and the value that it gives. Goes in: a tree of a checked grammar with the
//! code of its rules, a step at one of its nodes, and the words of its cells. Comes out: the cells
//! that the step reads, the cell that it fills, and the value.
//!
//! - `cells`: `target_cell`, `read_count`, `StepReads`: the cells of a step
//! - `neighbours`: the cells of a step, found quickly where all are of the node, the kid at hand
//!   and the kid before
//! - `forms`: `rule_form`, `form_at`, or `own_form_at` and `kid_form_at`: how a step computes, where
//!   a few cells of neighbours are all that it needs
//! - `value`: `step_value`: the value of a step; `copied_cell`: which cell it copies
//! - `limits`: `first_fault`: the first stage or step that reads more than it may
#![tactic(auto)]

pub mod cells;
pub mod forms;
pub mod limits;
pub mod neighbours;
pub mod value;

pub use cells::{StepReads, read_at, read_count, target_cell};
pub use forms::{
    FoldForm, FoldStep, FormStep, FoundFold, Operator, Question, RuleForm, StepForm, divided,
    fold_of, form_at, kid_form_at, operated, own_form_at, rule_form, rule_forms,
};
pub use neighbours::{
    NeighbourCells, NeighbourParts, NeighbourRead, NeighbourSite, neighbour_parts,
};
pub use value::{RuleCopy, copied_cell, rule_copies, step_value};
