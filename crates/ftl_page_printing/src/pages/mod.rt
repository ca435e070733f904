//! Pages, section by section. Goes in: the texts of the sections. Comes out: the text of a page
//! that is split into sections again which say the same.

mod alike;
mod parts;
mod written;

pub use alike::have_same_tokens;
pub use parts::Parts;
pub use written::page_of_parts;
