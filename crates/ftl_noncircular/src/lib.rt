//! Absolutely noncircular grammars (Knuth 1968): what they are, that exactly one table solves each
//! of their trees, and that each grammar is one, or has a first circular vertex.
//!
//! - `grammars`: vertices and edges of classes, what is circular, and the laws
//! - `walks`: which numbers walks of a matrix lead to
//! - `search`: whether a checked grammar is noncircular
#![tactic(auto)]

pub mod grammars;
pub mod search;
pub mod walks;

pub use grammars::{
    chains_of_reads_end, circles_are_decided, circular_grammars, circular_vertices_are_found,
    dependence_is_closed, first_circular_vertices, noncircular_grammars,
    one_list_where_noncircular, one_table_where_noncircular, one_table_without_a_schedule,
};
pub use search::{CircularFault, Noncircular, noncircular};
