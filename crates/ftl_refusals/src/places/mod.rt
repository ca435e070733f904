//! Places in a file. Goes in: the bytes of a page's file, and a byte of them or the text of a
//! section. Comes out: the line and the column of the byte, and where the section's text begins.
//! `specs/places/Places.antt` says what line and column are, and `specs/places/Sections.antt` where
//! a section stands.

mod laws;
mod place;
mod section;

pub use laws::{byte_comes_back, bytes_differ_in_place};
pub use place::{Place, place_of};
pub use section::section_start;
