//! Drawings of pages. Goes in: a page that was laid out, and the names of the attributes that place
//! a box. Comes out: an SVG with a box for each node that has these, or these boxes as numbers.
//!
//! - `placed`, `shape`, `rect`: the boxes of a page
//! - `plot`, `axis`, `extent`: how they are brought into a drawing
//! - `cross`: what stands for a box that is not known
//! - `label`, `labels`: what is written into boxes
//! - `svg`: the drawing; `rows`: its numbers

mod axis;
mod cross;
mod extent;
mod label;
mod labels;
mod placed;
mod plot;
mod rect;
mod rows;
mod shape;
mod svg;

pub use rows::box_rows;
pub use svg::{drawn_page, hue};
