//! The bytes of a page go in, and its width and sections come out: the texts of the grammar, the
//! schedule, the document and the edits, or the first fault of the page. Lines are numbered from 1.
//! `specs/sections/Lines.antt` says what lines and headings are, `specs/sections/Opening.antt` what
//! line 1 names, `specs/sections/Blocks.antt` what a heading stands for, and
//! `specs/sections/Page.antt` which sections a page has and which fault is its first. The grammars
//! that a heading may name are those of `ftl_boxes`.

mod body;
mod fault;
mod laws;
mod line;
mod page;
mod section;
mod split;
mod text;
mod words;

pub use fault::{PageFault, Section};
pub use laws::{faults_are_of_pages, law_of_lines};
pub use page::{Need, Page};
pub use split::split_page;
pub use text::Text;
