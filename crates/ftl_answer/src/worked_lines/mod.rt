//! Refusal lines that were typed out by hand. Goes in: the definitions of `refusals`. Comes out:
//! laws, stated by empty functions. There is no code here.

mod laws;

pub use laws::{
    lines_of_circles, lines_of_documents, lines_of_edits, lines_of_schedules, other_lines,
};
