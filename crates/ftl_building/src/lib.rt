//! Documents written by calls, without a text. Goes in: classes, numbers, nodes and lists by name,
//! one call after another. Comes out: the document of `ftl_document` that they are.
//!
//! - `building`: `DocumentBuilder`: a document while it is written; laws on its numbers
#![tactic(auto)]

pub mod building;

pub use building::{DocumentBuilder, numbers_stay_within};
