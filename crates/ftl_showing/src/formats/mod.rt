//! Pages in canonical form. Goes in: what the sections of a page were read as. Comes out: the page
//! with the canonical text of each section, in lines that can be read; a grammar that comes with
//! the program stays a name, and an automatic schedule stays automatic. Comments are left out.

mod edits;
mod laws;
mod page;

pub use page::{Source, formatted};
