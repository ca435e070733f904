//! Lines that show pages. Goes in: a page that was laid out. Comes out: its nodes as a tree, a line
//! for each; one node with all its attributes, what computes them and what that read; or one value
//! with those that it comes from. `specs/lines/Lines.antt` says what stands in the lines of a tree:
//! what the boxes of the page have, with where each node stands; `specs/lines/Details.antt` and
//! `specs/lines/Whys.antt` have the others. `style` cuts lines to a width, and colours them.

mod depth;
mod details;
mod fields;
mod instance;
mod node;
mod style;
mod tree;
mod walk;
mod why;

pub use details::node_lines;
pub use fields::Fields;
pub use node::push_node;
pub use style::{Style, styled};
pub use tree::tree_text;
pub use why::why_text;
