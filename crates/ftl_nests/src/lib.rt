//! Passes that nest a schedule in each node of a class, as definitions and laws without code. Goes
//! in: a grammar and a tree of `ftl_model::layout`. Comes out: `specs/Nests.antt`, schedules with
//! nests, and which are ordered, with regions in `specs/Region.antt`; `specs/Hosted.antt`, which
//! step must precede which; `specs/Flat.antt`, a schedule without nests for each; and
//! `specs/NestItems.antt`, the work of a stage. `specs/NestLaws.antt` and `specs/WorkLaws.antt` say
//! what holds of them.
#![tactic(auto)]

mod laws;
mod worked;

pub use laws::{
    closed_nests, flat_schedules, legal_orders_with_nests, nest_cuts, nest_stages, ordered_nests,
    regions,
};
pub use worked::{items_of_two_rows, refused_nests, regions_of_rows, rows_are_ordered};
