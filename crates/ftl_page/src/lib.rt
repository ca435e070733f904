//! What goes into the program: words and pages. Goes in: the words after the program's name, and
//! the bytes of a page. Comes out: the command that the words are, and the width and the sections
//! of the page, or its first fault.
//!
//! - `sections`: `split_page`: the sections of a page that a command needs, or its first fault
//! - `workers`: `solving_by`: by how many workers a page is solved, and how many nodes an item has
//! - `commands`: `read_command`: the words as a command
#![tactic(auto)]

pub mod commands;
pub mod sections;
pub mod workers;

pub use commands::{Command, CommandFault, read_command};
pub use sections::{Need, Page, PageFault, Section, Text, split_page};
pub use workers::Solving;
