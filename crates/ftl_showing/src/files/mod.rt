//! Files of pages. Goes in: a name. Comes out: the bytes of the file of that name, or of standard
//! input, or why they cannot be read.

mod reading;

pub use reading::{Unread, read_file};
