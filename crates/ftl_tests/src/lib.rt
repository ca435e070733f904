//! Tests of lower crates, which stand here so that those are proved once and not once more with
//! their tests.
//!
//! - `base`: values and the stack
//! - `edge`: sources and sinks
//! - `boxes`: shipped grammars and samples
//! - `page`: sections of pages
//! - `code`: code, from its instructions and its reads to its value
#![tactic(auto)]

pub mod base;
pub mod boxes;
pub mod code;
pub mod edge;
pub mod page;
