//! Which grammars are noncircular, as definitions and laws without code.

mod laws;
mod worked;

pub use laws::{
    chains_of_reads_end, circles_are_decided, circular_vertices_are_found, dependence_is_closed,
    one_list_where_noncircular, one_table_where_noncircular,
};
pub use worked::{
    circular_grammars, first_circular_vertices, noncircular_grammars, one_table_without_a_schedule,
};
