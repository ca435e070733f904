//! What each rule of a grammar reads, and which rule writes that first. Goes in: the grammar with
//! its names gone, of `ftl_model::layout`. Comes out: `specs/dependencies/DepReads.antt`, the reads
//! of a rule in the order of the text; `specs/dependencies/Writers.antt`, the rules that write
//! them. There is no code here but the types of reads, and laws that tie them to the pairs of
//! `orders`.

mod dep_read;
mod laws;
mod worked;

pub use dep_read::{DepRead, Form, Site};
pub use laws::{dep_reads_are_pairs, first_writers};
pub use worked::{first_writers_of_notes, reads_of_notes, reads_of_stack};
