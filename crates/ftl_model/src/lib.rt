//! The definitions that everything stands on, without code: lists; values, trees, attribute
//! grammars with the names gone, the table that solves a tree, and its printed boxes. Goes in:
//! nothing of the project. Comes out: words for contracts, and laws that hold them against worked
//! pages.
//!
//! - `lists`: where an entry stands in a list, that none stands twice, lists in order
//! - `layout`: values, trees, attribute grammars, the table that solves, boxes, what a call that
//!   can refuse answers
#![tactic(auto)]

pub mod layout;
pub mod lists;
