//! The items of a stage, as definitions and laws without code. Goes in: a grammar with its names
//! gone and a tree of `ftl_model::layout`, and a schedule of `ftl_order::orders`. Comes out:
//! `specs/stage_items/Cut.antt`, where items begin; `specs/stage_items/Visits.antt`, the steps of a
//! visit; `specs/stage_items/Items.antt`, the items of a stage with their steps and what each hands
//! on to; `specs/stage_items/StageWork.antt`, the work of a stage in the words of
//! `ftl_cells::shared`; `specs/stage_items/Limits.antt`, how much a stage reads.

mod cut_laws;
mod form_laws;
mod handing_laws;
mod later_laws;
mod read_laws;
mod step_laws;
mod visit_laws;
mod word_laws;
mod work_laws;
mod worked_items;
mod worked_steps;

pub use cut_laws::cuts;
pub use form_laws::forms;
pub use handing_laws::handings;
pub use later_laws::next_items;
pub use read_laws::reads;
pub use step_laws::steps;
pub use visit_laws::visits;
pub use word_laws::{words_at_the_ends, words_between};
pub use work_laws::stages;
pub use worked_items::items_of_two_words;
pub use worked_steps::steps_of_two_words;
