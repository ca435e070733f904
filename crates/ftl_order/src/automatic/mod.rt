//! The automatic schedule. Goes in: a grammar with its names gone, of `ftl_model::layout`, with
//! pairs and ordered schedules of `orders`. Comes out: `specs/automatic/Fitting.antt`, the lists
//! that fit a kind of pass and the least list of the largest set; `specs/automatic/Automatic.antt`,
//! the chain of such passes, the automatic schedule, and what is left where it is stuck. There is
//! no code here.

mod laws;
mod worked;

pub use laws::{
    automatic_schedule_is_ordered, exactly_one_automatic_schedule, found_where_one_exists,
    lists_that_fit,
};
pub use worked::{automatic_schedules_of_grammars, circle_is_stuck};
